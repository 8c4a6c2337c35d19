//! Paths of numbers.

ghost use Rattle.std.specs.Prelude.{◌≡◌, ◌++◌, ◌∷◌, [], List, ℕ, IfOk};
ghost use Rattle.asp_model.specs.Paths.{IsHeld, numbers_of};

use std::alloc::{AllocError, Global};
use std::marker::Model;

/// Where the numbers are.
#[derive(Debug, Drop)]
enum Held {
    /// In the value itself: so many, in the first places.
    Short([u32; 4], usize),
    Long(Vec<u32>),
}

/// A list of numbers. One of at most four is made and copied without an allocation.
#[derive(Debug)]
pub struct CreationPath {
    held: Held,
}

// Written out, so that crates above drop it by one call.
impl Drop for CreationPath {
    fn drop(self) {
        let CreationPath { held: _ } = self;
    }
}

impl Model for CreationPath {
    ghost Value = { List ℕ };

    ghost view = { λ p. numbers_of p.held };

    ghost invariant = { λ p. IsHeld p.held };
}

impl CreationPath {
    /// The path of one number.
    pub fn one(number: u32) -> CreationPath
        ensures numbers { result ≡ number ∷ [] }
    {
        CreationPath {
            held: Held::Short([number, 0, 0, 0], 1),
        }
    }

    /// A path of these numbers.
    pub fn of(numbers: Vec<u32>) -> CreationPath
        ensures numbers { result ≡ numbers.items }
    {
        CreationPath {
            held: Held::Long(numbers),
        }
    }

    /// The numbers, in order.
    pub fn numbers(&self) -> &[u32]
        ensures numbers { result.now ≡ self.now }
    {
        match &self.held {
            Held::Short(numbers, count) => &numbers[..(*count).min(numbers.len())],
            Held::Long(numbers) => numbers.as_slice(),
        }
    }

    /// The same path.
    pub fn copy(&self, alloc: Global) -> Result<CreationPath, AllocError>
        ensures same { IfOk result (λ p. p ≡ self.now) }
    {
        match &self.held {
            Held::Short(numbers, count) => Ok(CreationPath {
                held: Held::Short(*numbers, *count),
            }),
            Held::Long(numbers) => Ok(CreationPath::of(Vec::from_slice(alloc, numbers)?)),
        }
    }

    /// The path with one number more behind it.
    pub fn with(&self, alloc: Global, number: u32) -> Result<CreationPath, AllocError>
        ensures more { IfOk result (λ p. p ≡ self.now ++ number ∷ []) }
    {
        if let Held::Short(numbers, count) = &self.held {
            if *count < numbers.len() {
                let mut more = *numbers;
                more[*count] = number;
                return Ok(CreationPath {
                    held: Held::Short(more, *count + 1),
                });
            }
        }
        let mut more = Vec::from_slice(alloc, self.numbers())?;
        more.push(number)?;
        Ok(CreationPath::of(more))
    }
}

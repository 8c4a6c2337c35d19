//! Sets and lists of numbers.

ghost use Rattle.std.specs.Prelude.{◌≡◌, ◌||◌, ℕ, IfOk, OnOk, false};
ghost use Rattle.core_ranks.specs.Numbers.{Gains, IsFirst, Loses, has_number};

use core_sets::Marks;
use std::alloc::{AllocError, Global};
use std::marker::Model;

/// A set of numbers, each a marked place. The marks of some dozens lie side by side.
#[derive(Drop)]
pub struct Numbers {
    marks: Marks,
}

impl Model for Numbers {
    ghost use Rattle.core_ranks.specs.Numbers.{NumberSet};

    ghost Value = { NumberSet };

    ghost use Rattle.core_ranks.specs.Marked.{AreNumbers, marked_in};

    ghost view = { λ n. marked_in n.marks };

    ghost invariant = { λ n. AreNumbers n.marks };
}

impl Numbers {
    /// No number.
    pub fn new(alloc: Global) -> Numbers
        ensures none { (k : ℕ) → has_number k result.keys ≡ false }
    {
        Numbers {
            marks: Marks::new(alloc),
        }
    }

    /// The least number.
    pub fn first(&self) -> Option<u32>
        ensures first { IsFirst self.now.keys result }
    {
        match self.marks.first() {
            Some(number) => Some(number as u32),
            None => None,
        }
    }

    /// Whether a number is in the set.
    pub fn contains(&self, number: u32) -> bool
        ensures test { result ≡ has_number number self.now.keys }
    {
        self.marks.is_set(number as usize)
    }

    /// A number is in the set then.
    pub fn add(&mut self, number: u32) -> Result<(), AllocError>
        ensures gains { OnOk result (Gains number self.old.keys self.new.keys) }
    {
        self.marks.reach(number as usize)?;
        self.marks.set(number as usize, true);
        Ok(())
    }

    /// A number is in the set no more. It takes no memory.
    pub fn remove(&mut self, number: u32)
        ensures loses { Loses number self.old.keys self.new.keys }
    {
        if self.marks.is_set(number as usize) {
            self.marks.set(number as usize, false);
        }
    }

    /// All of these are in the set then.
    pub fn add_all(&mut self, mut more: Vec<u32>) -> Result<(), AllocError>
        ensures all { (k : ℕ) → OnOk result (has_number k self.new.keys
            ≡ (has_number k more.items || has_number k self.old.keys)) }
    {
        while let Some(number) = more.pop() {
            self.add(number)?;
        }
        Ok(())
    }
}

/// The numbers of both lists, the shorter one behind the longer.
pub fn joined(mut first: Vec<u32>, mut second: Vec<u32>) -> Result<Vec<u32>, AllocError>
    ensures all { (k : ℕ) → IfOk result (λ v. has_number k v.items
        ≡ (has_number k first.items || has_number k second.items)) }
{
    if first.len() < second.len() {
        second.append(&mut first)?;
        Ok(second)
    } else {
        first.append(&mut second)?;
        Ok(first)
    }
}

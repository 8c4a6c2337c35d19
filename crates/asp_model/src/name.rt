//! Names of activities and of futures.

ghost use Rattle.std.specs.Prelude.{◌≡◌, ◌++◌, ◌∷◌, [], List, ℕ, IfOk};
ghost use Rattle.std.proofs.Common.{ap, rules};
ghost use Rattle.std.specs.Cmp.{eq_by_cmp_equiv, partial_equiv_from_equiv, partial_order_from_total};
ghost use Rattle.std.specs.Cmp.Lexicographic.{nat_list_cmp_total};
ghost use Rattle.std.specs.Cmp.Rules.{comparing};
ghost use Rattle.std.specs.Hash as fed;
ghost use Rattle.std.specs.Ordering.{as_partial_cmp};
ghost use Rattle.asp_model.specs.Order.{same_name_same};
ghost use Rattle.asp_model.specs.Hashed.{future_number, mixed_with, name_number, same_number};
ghost use Rattle.asp_model.specs.Names.{created_name, main_name, name_cmp, same_name};

use crate::path::CreationPath;
use std::alloc::{AllocError, Global};
use std::cmp::Ordering;
use std::hash::{Hash, Hasher};
use std::marker::Model;

/// The name of an activity, seen as a list of numbers that begins with 0. A name of at most four
/// numbers is made and copied without an allocation.
#[derive(Debug)]
pub struct ActivityName {
    path: CreationPath,
}

// Written out, so that crates above drop it by one call.
impl Drop for ActivityName {
    fn drop(self) {
        let ActivityName { path: _ } = self;
    }
}

impl Model for ActivityName {
    ghost Value = { List ℕ };

    ghost view = { λ n. n.path };
}

/// The name of a future: who sent the request, and the request's number among those that it sent,
/// from 1.
#[derive(Debug, PartialEq, Eq, PartialOrd, Ord)]
pub struct FutureName {
    pub by: ActivityName,
    pub index: u32,
}

// Written out, so that crates above drop it by one call.
impl Drop for FutureName {
    fn drop(self) {
        let FutureName { by: _, index: _ } = self;
    }
}

impl ActivityName {
    /// The name of the main activity.
    pub fn main(_alloc: Global) -> Result<ActivityName, AllocError>
        ensures name { IfOk result (λ n. n ≡ main_name) }
    {
        Ok(ActivityName {
            path: CreationPath::one(0),
        })
    }

    /// A name with these numbers.
    pub fn of_path(path: Vec<u32>) -> ActivityName
        ensures name { result ≡ path.items }
    {
        ActivityName {
            path: CreationPath::of(path),
        }
    }

    /// The numbers of the name, in order.
    pub fn path(&self) -> &[u32]
        ensures path { result.now ≡ self.now }
    {
        self.path.numbers()
    }

    /// The same name.
    pub fn copy(&self, alloc: Global) -> Result<ActivityName, AllocError>
        ensures name { IfOk result (λ n. n ≡ self.now) }
    {
        Ok(ActivityName {
            path: self.path.copy(alloc)?,
        })
    }

    /// The name of the activity that this one creates under a number, from 1.
    pub fn created(&self, alloc: Global, number: u32) -> Result<ActivityName, AllocError>
        ensures name { IfOk result (λ n. n ≡ created_name self.now number) }
    {
        Ok(ActivityName {
            path: self.path.with(alloc, number)?,
        })
    }
}

impl FutureName {
    /// The same name.
    pub fn copy(&self, alloc: Global) -> Result<FutureName, AllocError>
        ensures name { IfOk result (λ f. f ≡ self.now) }
    {
        Ok(FutureName {
            by: self.by.copy(alloc)?,
            index: self.index,
        })
    }
}

// One number for a list of numbers, which their hash is made of.
fn number_of(numbers: &[u32]) -> u64
    ensures number { result ≡ name_number numbers.now }
{
    let mut number = 0;
    for part in numbers {
        number = mixed_with(number, *part);
    }
    number
}

#[inline(always)]
fn mixed_with(number: u64, part: u32) -> u64
    ensures number { result ≡ mixed_with number part }
{
    number
        .wrapping_mul(0x9e37_79b9_7f4a_7c15)
        .wrapping_add(part as u64)
}

// The order of two lists of numbers.
fn compare_numbers(left: &[u32], right: &[u32]) -> Ordering
    ensures order { result ≡ name_cmp left.now right.now }
{
    let mut i = 0;
    while i < left.len() && i < right.len() {
        if left[i] != right[i] {
            return left[i].cmp(&right[i]);
        }
        i += 1;
    }
    left.len().cmp(&right.len())
}

impl Hash for FutureName {
    ghost hash_input = { λ f. fed.u64 (future_number f.by f.index) };

    ghost respects_eq = { λ f g e. ap fed.u64 (same_number f.by g.by f.index g.index e) };

    fn hash<H: Hasher>(&self, state: &mut H) {
        state.write_u64(mixed_with(number_of(self.by.path()), self.index));
    }
}

impl PartialEq for ActivityName {
    ghost eq = { same_name };

    ghost laws = { partial_equiv_from_equiv (eq_by_cmp_equiv nat_list_cmp_total) };

    fn eq(&self, other: &ActivityName) -> bool {
        compare_numbers(self.path(), other.path()) == Ordering::Equal
    }
}

impl Eq for ActivityName {
    ghost laws = { eq_by_cmp_equiv nat_list_cmp_total };
}

impl Hash for ActivityName {
    ghost hash_input = { λ n. fed.u64 (name_number n) };

    ghost respects_eq = { λ x y e. ap (λ n. fed.u64 (name_number n)) (same_name_same x y e) };

    fn hash<H: Hasher>(&self, state: &mut H) {
        state.write_u64(number_of(self.path()));
    }
}

impl PartialOrd for ActivityName {
    ghost partial_cmp = { as_partial_cmp name_cmp };

    ghost laws = { partial_order_from_total nat_list_cmp_total };

    fn partial_cmp(&self, other: &ActivityName) -> Option<Ordering> {
        Some(self.cmp(other))
    }
}

/// By the numbers of the names, in order, a beginning of a name before the name.
impl Ord for ActivityName {
    ghost cmp = { name_cmp };

    ghost total = { nat_list_cmp_total };

    ghost matches_partial_cmp = { Prim.search (comparing, rules) };

    ghost matches_eq = { Prim.search (comparing, rules) };

    fn cmp(&self, other: &ActivityName) -> Ordering {
        compare_numbers(self.path(), other.path())
    }
}

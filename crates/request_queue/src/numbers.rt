//! Numbers that only grow, of which mostly the first leaves.

ghost use Rattle.std.specs.Prelude.{
  ◌≡◌,
  ℕ,
  ◌<◌,
  ◌++◌,
  ◌∷◌,
  IsTrue,
  OnErr,
  OnOk,
  Some,
  [],
  false,
  true,
};
ghost use Rattle.request_queue.specs.Numbers.{IsLeast, Turns, has_number};

use std::alloc::{AllocError, Global};
use std::collections::VecDeque;
use std::marker::Model;

/// Numbers, each below those after it.
#[derive(Drop)]
pub struct Numbers {
    numbers: VecDeque<u64>,
}

impl Model for Numbers {
    ghost use Rattle.std.specs.Prelude.{ℕ, List};

    ghost Value = { List ℕ };

    ghost use Rattle.request_queue.specs.Ascending.{Ascend, ascending};

    ghost view = { ascending };

    ghost invariant = { Ascend };
}

impl Numbers {
    /// No number.
    pub fn new(alloc: Global) -> Numbers
        ensures none { result ≡ [] }
    {
        Numbers {
            numbers: VecDeque::new(alloc),
        }
    }

    /// Appends a number that is above the others.
    pub fn push(&mut self, number: u64) -> Result<(), AllocError>
        requires above { (k : ℕ) → has_number k self.old ≡ true → k < number }
        ensures ok { OnOk result (self.new ≡ self.old ++ number ∷ []) }
        ensures err { OnErr result (self.new ≡ self.old) }
    {
        self.numbers.push_back(number)?;
        Ok(())
    }

    /// Removes a number, where it is there. The first one leaves at once, and another is searched for.
    pub fn forget(&mut self, number: u64)
        ensures forgotten { Turns number false self.old self.new }
    {
        if self.begins_with(number) {
            self.numbers.pop_front();
        } else if let Ok(at) = self.numbers.binary_search(&number) {
            self.numbers.remove(at);
        }
    }

    // Whether this is the least number.
    fn begins_with(&self, number: u64) -> bool
        ensures least { IsTrue result → IsLeast self.now (Some number) }
    {
        match self.first() {
            Some(first) => first == number,
            None => false,
        }
    }

    /// The least number.
    pub fn first(&self) -> Option<u64>
        ensures least { IsLeast self.now result }
    {
        self.numbers.front().copied()
    }

    /// Whether there is none.
    pub fn is_empty(&self) -> bool
        ensures none { IsTrue result → self.now ≡ [] }
        ensures some { self.now ≡ [] → IsTrue result }
    {
        self.numbers.is_empty()
    }
}

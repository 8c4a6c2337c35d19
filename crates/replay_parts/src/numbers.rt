//! A set of numbers, of which the least is mostly taken out and put back.

ghost use Rattle.std.specs.Prelude.{◌≡◌, ℕ, IfNone, IfSome, OnOk, Some, false};
ghost use Rattle.replay_parts.specs.Numbers.{IsFrontLeast, IsLeastOf, IsLeastTaken, IsLesserThan, IsTooIn, holds};

use std::alloc::{AllocError, Global};
use std::collections::BTreeSet;

/// Numbers. One stands beside the others, so that it costs little to take it out and to put it back.
#[derive(Drop)]
pub struct Numbers {
    front: Option<u32>,
    others: BTreeSet<u32>,
}

impl Numbers {
    /// None.
    pub fn new(alloc: Global) -> Numbers {
        Numbers {
            front: None,
            others: BTreeSet::new(alloc),
        }
    }

    /// One more.
    pub fn add(&mut self, number: u32) -> Result<(), AllocError>
        ensures added { OnOk result (IsTooIn self.old number self.new) }
    {
        let Some(front) = self.front else {
            self.front = Some(number);
            return Ok(());
        };
        if front == number {
            return Ok(());
        }
        if number < front {
            return self.put_before(front, number);
        }
        self.put_behind(number)
    }

    // It stands beside the others, and the one that did stands among them.
    fn put_before(&mut self, front: u32, number: u32) -> Result<(), AllocError>
        requires front { self.old.front ≡ Some front }
        ensures added { OnOk result (IsTooIn self.old number self.new) }
    {
        self.others.insert(front)?;
        self.front = Some(number);
        Ok(())
    }

    // It stands among the others.
    fn put_behind(&mut self, number: u32) -> Result<(), AllocError>
        ensures added { OnOk result (IsTooIn self.old number self.new) }
    {
        self.others.insert(number)?;
        Ok(())
    }

    // Whether one of the others is less than a number.
    fn has_lesser(&self, number: u32) -> bool
        ensures lesser { IsLesserThan self.now number result }
    {
        match self.others.first() {
            Some(first) => *first < number,
            None => false,
        }
    }

    // Whether the one that stands beside the others is the least.
    fn is_front_least(&self) -> bool
        ensures least { IsFrontLeast self.now result }
    {
        match self.front {
            Some(front) => !self.has_lesser(front),
            None => false,
        }
    }

    /// The least, if there is one.
    pub fn first(&self) -> Option<u32>
        ensures least { IfSome result (IsLeastOf self.now) }
        ensures none { IfNone result ((k : ℕ) → holds self.now k ≡ false) }
    {
        if self.is_front_least() {
            return self.front;
        }
        match self.others.first() {
            Some(first) => Some(*first),
            None => None,
        }
    }

    /// The least leaves, if there is one.
    pub fn take_first(&mut self) -> Option<u32>
        ensures taken { IfSome result (λ k. IsLeastTaken self.old k self.new) }
        ensures none { IfNone result ((k : ℕ) → holds self.old k ≡ false) }
    {
        if self.is_front_least() {
            let front = self.front;
            self.front = None;
            return front;
        }
        match self.others.pop_first() {
            Some(number) => Some(number),
            None => None,
        }
    }
}

//! Which of so many things are ticked off, and in which order.

ghost use Rattle.std.specs.Prelude.{
  ◌≡◌,
  ◌+◌,
  ◌<◌,
  ◌++◌,
  ◌∷◌,
  [],
  OnOk,
  false,
};
ghost use Rattle.core_sets.specs.Ticks.{AreTicks, HasRoom, is_among, size};

use crate::limits::MOST_NUMBERED;
use std::alloc::{AllocError, Global};

#[derive(Drop)]
pub struct Ticks {
    done: Vec<bool>,
    /// There is room for those that are not done.
    order: Vec<u32>,
}

impl Ticks {
    pub fn new(alloc: Global) -> Ticks
        ensures ticks { AreTicks result }
        ensures size { size result ≡ 0 }
        ensures order { result.order.items ≡ [] }
    {
        Ticks {
            done: Vec::new(alloc),
            order: Vec::new(alloc),
        }
    }

    /// Makes room for one more thing. It fails when there are as many things as can be numbered, or
    /// without memory.
    pub fn reserve(&mut self) -> Result<(), AllocError>
        requires ticks { AreTicks self.old }
        ensures ticks { AreTicks self.new }
        ensures room { OnOk result (HasRoom self.new) }
        ensures order { self.new.order.items ≡ self.old.order.items }
        ensures done { self.new.done.items ≡ self.old.done.items }
    {
        if self.done.len() >= MOST_NUMBERED {
            return Err(AllocError);
        }
        let open = self.done.len() - self.order.len();
        self.order.reserve(open + 1)?;
        self.done.reserve(1)
    }

    /// One more thing, which is not ticked off.
    pub fn grow(&mut self)
        requires ticks { AreTicks self.old }
        requires room { HasRoom self.old }
        ensures ticks { AreTicks self.new }
        ensures order { self.new.order.items ≡ self.old.order.items }
        ensures size { size self.new ≡ size self.old + 1 }
    {
        let _ = self.done.push(false);
    }

    pub fn is_done(&self, number: usize) -> bool
        requires ticks { AreTicks self.now }
        requires within { number < size self.now }
        ensures done { result ≡ is_among number self.now.order.items }
    {
        self.done[number]
    }

    /// Ticks off what was not.
    pub fn tick(&mut self, number: usize)
        requires ticks { AreTicks self.old }
        requires within { number < size self.old }
        requires open { is_among number self.old.order.items ≡ false }
        ensures ticks { AreTicks self.new }
        ensures order { self.new.order.items ≡ self.old.order.items ++ number ∷ [] }
        ensures size { size self.new ≡ size self.old }
    {
        self.done[number] = true;
        let _ = self.order.push(number as u32);
    }

    /// What was ticked off, in order.
    pub fn order(&self) -> &[u32]
        ensures order { result.now ≡ self.now.order.items }
    {
        &self.order
    }
}

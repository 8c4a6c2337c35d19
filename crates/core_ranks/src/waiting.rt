//! Who waits for which future.

ghost use Rattle.std.specs.Prelude.{◌≡◌, ◌≢◌, ◌||◌, ℕ, [], OnOk};
ghost use Rattle.asp_model.specs.Names.{FutureShape};
ghost use Rattle.asp_model.specs.Shapes.{future_shape};
ghost use Rattle.core_ranks.specs.Numbers.{has_number};
ghost use Rattle.core_ranks.specs.Waiting.{IsWaiter, StayElsewhere, numbers_at};

use crate::numbers::joined;
use asp_model::FutureName;
use std::alloc::{AllocError, Global};
use std::collections::BTreeMap;

/// For each future the numbers of those who wait for it.
#[derive(Drop)]
pub struct Waiting {
    alloc: Global,
    numbers: BTreeMap<FutureName, Vec<u32>>,
}

impl Waiting {
    pub fn new(alloc: Global) -> Waiting
        ensures none { (f : FutureShape) → numbers_at result f ≡ [] }
    {
        Waiting {
            alloc,
            numbers: BTreeMap::new(alloc),
        }
    }

    /// Those who wait for a future. They do so no more.
    pub fn take(&mut self, future: &FutureName) -> Vec<u32>
        ensures taken { result.items ≡ numbers_at self.old (future_shape future.now) }
        ensures none { numbers_at self.new (future_shape future.now) ≡ [] }
        ensures others { StayElsewhere (future_shape future.now) self.old self.new }
    {
        match self.numbers.remove(future) {
            Some(numbers) => numbers,
            None => Vec::new(self.alloc),
        }
    }

    /// One of those who wait.
    pub fn someone(&self) -> Option<u32>
        ensures waiter { IsWaiter self.now result }
    {
        for (_future, numbers) in &self.numbers {
            if let Some(number) = numbers.first() {
                return Some(*number);
            }
        }
        None
    }

    fn set(&mut self, future: FutureName, numbers: Vec<u32>) -> Result<(), AllocError>
        ensures here { OnOk result (numbers_at self.new (future_shape future) ≡ numbers.items) }
        ensures others { OnOk result (StayElsewhere (future_shape future) self.old self.new) }
    {
        self.numbers.insert(future, numbers)?;
        Ok(())
    }

    /// These wait for the future too.
    pub fn join(&mut self, future: FutureName, numbers: Vec<u32>) -> Result<(), AllocError>
        ensures here { (k : ℕ) → let f = future_shape future in
            OnOk result (has_number k (numbers_at self.new f)
            ≡ (has_number k numbers.items || has_number k (numbers_at self.old f))) }
        ensures others { OnOk result (StayElsewhere (future_shape future) self.old self.new) }
    {
        if numbers.is_empty() {
            return Ok(());
        }
        let others = self.take(&future);
        let all = joined(numbers, others)?;
        self.set(future, all)
    }
}

//! How many entries of each log were met.

ghost use Rattle.std.specs.Prelude.{◌≡◌, ◌+◌, ◌-◌, ◌^◌, ◌<◌, IfOk, IsSome, OnOk, cond};
ghost use Rattle.std.specs.BTreeMap.{get};
ghost use Rattle.asp_model.specs.Names.{Name, name_cmp, same_name};
ghost use Rattle.explain.specs.OrderKept.{count_at};

use asp_model::ActivityName;
use std::alloc::{AllocError, Global};
use std::collections::BTreeMap;

/// How many entries of each log were met.
#[derive(Drop)]
pub struct Places {
    alloc: Global,
    pub counts: BTreeMap<ActivityName, usize>,
}

impl Places {
    /// None was met.
    pub fn new(alloc: Global) -> Places
        ensures none { (n : Name) → count_at result n ≡ 0 }
    {
        Places {
            alloc,
            counts: BTreeMap::new(alloc),
        }
    }

    // There is a number of this log.
    fn know(&mut self, name: &ActivityName) -> Result<(), AllocError>
        ensures known { OnOk result (IsSome (get name_cmp self.new.counts name.now)) }
        ensures same { OnOk result ((n : Name) → count_at self.new n ≡ count_at self.old n) }
    {
        if !self.counts.contains_key(name) {
            let name = name.copy(self.alloc)?;
            self.counts.insert(name, 0)?;
        }
        Ok(())
    }

    /// One entry more is met. Its place in its log is returned.
    pub fn next(&mut self, name: &ActivityName) -> Result<usize, AllocError>
        requires room { count_at self.old name.now < 2 ^ 64 - 1 }
        ensures place { IfOk result (λ k. k ≡ count_at self.old name.now) }
        ensures more { OnOk result ((n : Name) → count_at self.new n
            ≡ cond (same_name name.now n) (count_at self.old n + 1) (count_at self.old n)) }
    {
        self.know(name)?;
        match self.counts.get_mut(name) {
            Some(count) => {
                let place = *count;
                *count = place + 1;
                Ok(place)
            }
            None => unreachable!(),
        }
    }
}

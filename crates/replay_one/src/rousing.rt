//! A machine whose run goes on within other bounds.

ghost use Rattle.std.specs.Prelude.{OnOk};
ghost use Rattle.asp_model.specs.Configuration.{Configuration};
ghost use Rattle.asp_model.specs.Term.{Tree};
ghost use Rattle.replay_population.specs.Reached.{IsReachedPopulation};
ghost use Rattle.replay_parts.specs.declared.bounds.Bounds.{Bounds};
ghost use Rattle.replay_parts.specs.Bounds.{IsNumbered};
ghost use Rattle.replay_one.specs.Round.{IsInOrder, IsRunAt};

use crate::round::Machine;
use std::alloc::{AllocError, Global};
use std::collections::BTreeMap;

impl Machine {
    /// Everybody is ready, whatever bounds the run from here on.
    pub fn rouse(&mut self, alloc: Global) -> Result<(), AllocError>
        ensures runs { (b : Bounds) (program : Tree) (c : Configuration) →
            IsReachedPopulation self.old.population program c →
            IsNumbered b self.old.population.roster → OnOk result (IsRunAt b self.new program c) }
        ensures order { IsInOrder self.old → OnOk result (IsInOrder self.new) }
    {
        self.population.passed = BTreeMap::new(alloc);
        for number in 0..self.population.roster.len() as u32 {
            self.schedule.wake(alloc, &self.population.roster, number)?;
        }
        Ok(())
    }
}

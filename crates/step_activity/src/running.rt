//! Reductions of an activity that need no other.

ghost use Rattle.std.specs.Prelude.{◌≡◌, IfOk, List};
ghost use Rattle.asp_model.specs.Configuration as model;
ghost use Rattle.asp_model.specs.Configuration.{RequestShape};
ghost use Rattle.step_activity.specs.Actors.{Stands, code_of, log_in};
ghost use Rattle.step_activity.specs.Running.{IsRunBy};

use crate::actor::Actor;
use std::alloc::{AllocError, Global};

impl Actor {
    /// Takes the contractions before the next redex that needs others, at most so many, and answers
    /// how many. It has settled then.
    pub fn run(&mut self, alloc: Global, most: u64) -> Result<u64, AllocError>
        ensures runs { (a : model.Activity) (rs : List RequestShape) → Stands self.old a rs →
            IfOk result (IsRunBy self.new a rs most) }
        ensures log { log_in self.new ≡ log_in self.old }
        ensures code { code_of self.new ≡ code_of self.old }
    {
        let before = self.activity.count();
        self.clear = 0;
        self.activity.local(alloc, most)?;
        Ok(self.activity.count().saturating_sub(before))
    }
}

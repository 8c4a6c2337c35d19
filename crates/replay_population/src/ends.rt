//! The end of a run.

ghost use Rattle.std.specs.Prelude.{◌≡◌, IfOk};
ghost use Rattle.asp_model.specs.Configuration.{Configuration};
ghost use Rattle.asp_model.specs.Outcome.{outcome_of};
ghost use Rattle.asp_model.specs.Shapes.{outcome_shape};
ghost use Rattle.asp_model.specs.Term.{Tree};
ghost use Rattle.def_paths.specs.Outcomes.{whole_outcome_of};
ghost use Rattle.run_ends.specs.Ends.{IsEndOf};
ghost use Rattle.replay_population.specs.Reached.{IsReachedBySome, IsReachedPopulation};

use crate::population::Population;
use run_ends::RunEnd;
use std::alloc::{AllocError, Global};
use step_ends::run_end_of;

impl Population {
    /// What the run leaves that led here from the start of a program.
    pub fn end(mut self, alloc: Global) -> Result<RunEnd, AllocError>
        requires reached { IsReachedBySome self }
        // With the state of each activity, and the filled futures.
        ensures end { (program : Tree) (c : Configuration) → IsReachedPopulation self program c →
            IfOk result (λ r. IsEndOf r (whole_outcome_of c)) }
        ensures outcome { (program : Tree) (c : Configuration) →
            IsReachedPopulation self program c →
            IfOk result (λ r. outcome_shape r.outcome ≡ outcome_of c) }
    {
        let activities = self.take_all(alloc)?;
        run_end_of(alloc, activities, self.into_futures())
    }
}

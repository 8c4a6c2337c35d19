//! A core that is taken apart, once its verdict is there.

ghost use Rattle.std.specs.Prelude.{◌≡◌, Err, IfOk, alloc_error, is_some, true};
ghost use Rattle.asp_model.specs.Outcome.{outcome_of};
ghost use Rattle.asp_model.specs.Shapes.{outcome_shape};
ghost use Rattle.def_journals.specs.Journals.{RunShape};
ghost use Rattle.def_paths.specs.Outcomes.{whole_outcome_of};
ghost use Rattle.run_ends.specs.Ends.{IsEndOf};
ghost use Rattle.asp_core.specs.Calls.{verdict_of};
ghost use Rattle.asp_core.specs.Cores.{IsKept, IsRun};
ghost use Rattle.asp_core.specs.Frozen.{StandsIn, first_of};

use super::Core;
use crate::freezing::{Frozen, taken_apart};
use crate::gathering::end;
use run_ends::RunEnd;
use std::alloc::AllocError;
use update_policy::UpdatePolicy;

impl<P: UpdatePolicy + Drop> Core<P> {
    /// The end of the run, with the states of its activities.
    pub fn outcome(self) -> Result<RunEnd, AllocError>
        requires kept { IsKept self }
        requires over { (s : RunShape) → IsRun self s → is_some (verdict_of self s) ≡ true }
        ensures end { (s : RunShape) → IsRun self s →
            IfOk result (λ r. IsEndOf r (whole_outcome_of s.configuration)) }
        ensures outcome { (s : RunShape) → IsRun self s →
            IfOk result (λ r. outcome_shape r.outcome ≡ outcome_of s.configuration) }
        ensures spent { self.spent ≡ true → result ≡ Err alloc_error }
    {
        if self.spent {
            drop(self);
            return Err(AllocError);
        }
        let Core {
            alloc: _,
            code,
            first: _,
            budget: _,
            state,
            edges,
            spent: _,
        } = self;
        drop(code);
        drop(edges);
        end(state)
    }

    /// Takes a core apart that has its verdict. Each activity goes on to its next redex, or to the
    /// place that its term is.
    pub fn freeze(self) -> Result<Frozen, AllocError>
        requires kept { IsKept self }
        requires over { (s : RunShape) → IsRun self s → is_some (verdict_of self s) ≡ true }
        ensures frozen { (s : RunShape) → IsRun self s →
            IfOk result (λ x. StandsIn x (first_of s)) }
        ensures spent { self.spent ≡ true → result ≡ Err alloc_error }
    {
        if self.spent {
            drop(self);
            return Err(AllocError);
        }
        let Core {
            alloc,
            code,
            first: _,
            budget: _,
            state,
            edges,
            spent: _,
        } = self;
        let homes = edges.holders().homes(alloc);
        drop(edges);
        match homes {
            Ok(homes) => taken_apart(code, homes, state),
            Err(error) => {
                drop(code);
                drop(state);
                Err(error)
            }
        }
    }
}

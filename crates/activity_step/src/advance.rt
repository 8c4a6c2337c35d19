//! What an advance of an activity comes to.

ghost use Rattle.std.specs.Prelude.{◌≡◌, IfNone, IfSome, List};
ghost use Rattle.asp_model.specs.Contraction.{Contraction};
ghost use Rattle.code_table.specs.declared.code.Node.{Node as NodeShape};
ghost use Rattle.code_table.specs.Cells.{CodedStore};
ghost use Rattle.step_rows.specs.Decisions.{decided};
ghost use Rattle.activity_step.specs.Advances.{IsStopped, IsTold};
ghost use Rattle.activity_step.specs.declared.advance.Advance.TheVariants as advance;

use asp_model::Fault;
use code_table::Place;
use step_rows::Decision;

/// What the redex of an activity comes to.
#[derive(Clone, Copy)]
pub enum Advance {
    /// A contraction.
    Reduces,
    Faults(Fault),
    /// The first strict operand that is a future.
    Needs(Place),
    /// A new activity, whose object is this one.
    Creates(Place),
    /// A request.
    Sends,
    /// A service.
    Serves,
    /// A poll.
    Polls,
    /// The term is a place.
    Rests(Place),
}

/// What a decision that is no contraction comes to.
#[inline(always)]
pub fn stop_of(decision: Decision) -> Option<Advance>
    ensures stops { (k : List NodeShape) (s : CodedStore) (c : Contraction) →
        c ≡ decided k s decision →
        IfSome result (λ r. IsStopped r c) }
    ensures goes { (k : List NodeShape) (s : CodedStore) (c : Contraction) →
        c ≡ decided k s decision →
        IfNone result (IsTold advance.Reduces c) }
{
    match decision {
        Decision::Faults(fault) => Some(Advance::Faults(fault)),
        Decision::Needs(place) => Some(Advance::Needs(place)),
        Decision::Stays(_) => None,
        Decision::Number(_) => None,
        Decision::Copies(_) => None,
        Decision::Puts { .. } => None,
        Decision::Prints { .. } => None,
    }
}

//! Which value is needed next.

ghost use Rattle.std.specs.Prelude.{◌≡◌, IfOk, IfSome, List};
ghost use Rattle.std.specs.Option.{option_map};
ghost use Rattle.asp_model.specs.History.{HistoryShape};
ghost use Rattle.asp_model.specs.Shapes.{future_shape};
ghost use Rattle.def_journals.specs.Journals.{RunShape};
ghost use Rattle.code_table.specs.declared.code.Node.{Node as NodeShape};
ghost use Rattle.step_activity.specs.Stances.{stance_shape};
ghost use Rattle.core_state.specs.Cores.{IsCore, IsSomeCore};
ghost use Rattle.core_state.specs.Deliveries.{IsSomeNeed};
ghost use Rattle.core_state.specs.Next.{IsNextNeed, need_shape, need_told};

use crate::state::CoreState;
use asp_model::FutureName;
use code_table::Place;
use std::alloc::{AllocError, Global};
use step_activity::Stance;

/// A value that is owed to an activity that is in: that of this future, at this place.
#[derive(Drop)]
pub struct Needed {
    pub number: u32,
    pub loc: Place,
    pub future: FutureName,
}

/// What is owed to the activity of a number that stands so.
fn needed_at(alloc: Global, number: u32, stance: Stance) -> Result<Option<Needed>, AllocError>
    ensures needed { let told = need_told (stance_shape stance.entry) in
        IfOk result (λ o. option_map need_shape o ≡ told) }
    ensures number { IfOk result (λ o. IfSome o (λ x. x.number ≡ number)) }
{
    match stance {
        Stance::Needs(loc, future) => {
            let future = future.copy(alloc)?;
            Ok(Some(Needed {
                number,
                loc,
                future,
            }))
        }
        Stance::Contracts | Stance::Communicates => Ok(None),
        Stance::Awaits(_) | Stance::Faulted(_) | Stance::Serving | Stance::Done => Ok(None),
    }
}

/// The need of the least number that has one. Nobody else is looked at.
pub fn next_need(state: &CoreState) -> Result<Option<Needed>, AllocError>
    requires core { IsSomeCore state.now }
    ensures next { (h : HistoryShape) (code : List NodeShape) (s : RunShape) →
        IsCore h code state.now s → IfOk result (IsNextNeed s) }
    ensures owed { IfOk result (λ o. IfSome o
        (λ x. IsSomeNeed state.now x.number x.loc (future_shape x.future))) }
{
    let Some(number) = state.ranks.first_needy() else {
        return Ok(None);
    };
    let Some(actor) = state.seats.get(number) else {
        unreachable!()
    };
    let stance = actor.stance(state.alloc, &state.futures)?;
    needed_at(state.alloc, number, stance)
}

//! An activity that comes in with one reduction more.

ghost use Rattle.std.specs.Prelude.{◌≡◌, List, OnOk, ℕ};
ghost use Rattle.asp_model.specs.History.{HistoryShape};
ghost use Rattle.asp_model.specs.Intent.{Effect};
ghost use Rattle.asp_model.specs.Names.{Name};
ghost use Rattle.def_journals.specs.Journals.{RunShape};
ghost use Rattle.code_table.specs.declared.code.Node.{Node as NodeShape};
ghost use Rattle.core_state.specs.Commits.{IsActing, IsGivingFrom};
ghost use Rattle.core_state.specs.Handing.{IsComing};

use crate::state::CoreState;
use asp_model::ActivityName;
use std::alloc::AllocError;
use step_activity::{Actor, Given};

/// An activity whose lease comes back does the communication at which it stands, and comes in. It has
/// received what came meanwhile: a poll sees that, and stands behind it in the log. What the
/// communication gives goes where the caller says: nobody has it yet, and it is moved once.
pub fn bring_in(
    state: &mut CoreState,
    number: u32,
    name: &ActivityName,
    mut actor: Box<Actor>,
    given: &mut Given,
) -> Result<(), AllocError>
    requires coming { IsComing state.old number actor.value }
    ensures giving { (h : HistoryShape) (code : List NodeShape) (s : RunShape) (n : Name)
        (grant : ℕ) (reductions : ℕ) (e : Effect) → name.now ≡ n →
        (r : IsActing h code state.old s number n grant reductions actor.value e) →
        let end = r.returning.end in
        let giving = IsGivingFrom h code state.new s number n grant reductions e end in
        OnOk result (giving given.new) }
    ensures journal { state.new.journal ≡ state.old.journal }
{
    let here = actor.as_mut();
    *given = here.act(state.alloc, name, &state.futures)?;
    here.settle()?;
    let _came = state.seats.put(number, actor);
    Ok(())
}

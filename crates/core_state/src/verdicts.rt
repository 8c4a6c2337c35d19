//! The verdict of a core, where it has one.

ghost use Rattle.std.specs.Prelude.{List};
ghost use Rattle.asp_model.specs.History.{HistoryShape};
ghost use Rattle.def_journals.specs.Journals.{RunShape};
ghost use Rattle.code_table.specs.declared.code.Node.{Node as NodeShape};
ghost use Rattle.core_state.specs.Cores.{IsCore, IsSomeCore};
ghost use Rattle.core_state.specs.Verdicts.{GoesOn, IsToldVerdict};

use crate::ends::verdict_at_rest;
use crate::state::CoreState;
use asp_model::Verdict;

/// Whether somebody is out, a value is needed, or somebody may be lent.
fn goes_on(state: &CoreState) -> bool
    requires core { IsSomeCore state.now }
    ensures goes_on { (h : HistoryShape) (code : List NodeShape) (s : RunShape) →
        IsCore h code state.now s → GoesOn s result }
{
    if state.seats.is_any_out() {
        return true;
    }
    match state.ranks.first_needy() {
        Some(_) => true,
        None => state.next_ready().is_some(),
    }
}

/// The verdict of a core, where nobody is out, nothing is owed, and none may be lent.
/// `is_edge_due` says whether a value is owed along an edge to one that is in. It takes no memory.
pub fn verdict(state: &CoreState, is_edge_due: bool) -> Option<Verdict>
    requires core { IsSomeCore state.now }
    ensures verdict { (h : HistoryShape) (code : List NodeShape) (s : RunShape) →
        IsCore h code state.now s → IsToldVerdict s is_edge_due result }
{
    if is_edge_due {
        return None;
    }
    if goes_on(state) {
        return None;
    }
    Some(verdict_at_rest(&state.ranks))
}

//! An activity that comes in with a communication.

ghost use Rattle.std.specs.Prelude.{◌≡◌, List, OnErr, OnOk};
ghost use Rattle.asp_model.specs.History.{HistoryShape};
ghost use Rattle.asp_model.specs.Intent.{Effect};
ghost use Rattle.asp_model.specs.Names.{Name};
ghost use Rattle.def_journals.specs.Journals.{RunShape};
ghost use Rattle.code_table.specs.declared.code.Node.{Node as NodeShape};
ghost use Rattle.core_state.specs.Journal.{entries_in};
ghost use Rattle.core_state.specs.Commits.{IsActCommitted, IsGiving, IsSomeGiving};

use crate::handing::hand_on;
use crate::ranking::{look, rank_others};
use crate::spending::left_with;
use crate::state::CoreState;
use asp_model::Entry;
use std::alloc::AllocError;
use step_activity::Given;

/// An activity has come in with these reductions, and others get what the last one gives. What is
/// left of its grant goes back.
pub fn come_in(
    state: &mut CoreState,
    number: u32,
    grant: u64,
    reductions: u64,
    given: Given,
) -> Result<(), AllocError>
    requires giving { IsSomeGiving state.old number grant reductions given }
    ensures committed { (h : HistoryShape) (code : List NodeShape) (s : RunShape) (n : Name)
        (e : Effect) → (r : IsGiving h code state.old s number n grant reductions e given) →
        let done = IsActCommitted h code s number n grant reductions r.acting.returning.end e in
        OnOk result (done state.new) }
    ensures entries { OnErr result
        (entries_in state.new.journal ≡ entries_in state.old.journal) }
{
    let change = hand_on(state, given)?;
    rank_others(state, number, change)?;
    let rank = look(state, number)?;
    state.ranks.rank(number, rank)?;
    state.left = left_with(state.left, grant, reductions);
    state.journal.note(Entry::Committed { number, reductions });
    Ok(())
}

//! A value that goes where it is needed.

ghost use Rattle.std.specs.Prelude.{◌≡◌, IfOk, List, OnErr, OnOk};
ghost use Rattle.asp_model.specs.History.{Delivered, HistoryShape, Need};
ghost use Rattle.asp_model.specs.Shapes.{entry_shape, future_shape};
ghost use Rattle.def_journals.specs.Journals.{RunShape};
ghost use Rattle.code_table.specs.declared.code.Node.{Node as NodeShape};
ghost use Rattle.core_state.specs.Journal.{entries_in};
ghost use Rattle.core_state.specs.Cores.{IsCore};
ghost use Rattle.core_state.specs.Deliveries.{IsNeedDelivered, IsNeeded, IsSomeNeed};

use crate::standing::rank_again;
use crate::state::CoreState;
use asp_model::{ActivityName, Delivery, Entry, FutureName};
use code_table::Place;
use std::alloc::{AllocError, Global};

/// The value of a future goes to a place of an activity that is in, whose future leads to it. Where
/// nothing was owed to the activity, it stands as before.
pub fn deliver_need(
    state: &mut CoreState,
    number: u32,
    loc: Place,
    future: &FutureName,
) -> Result<(), AllocError>
    requires need { IsSomeNeed state.old number loc (future_shape future.now) }
    ensures delivered { (h : HistoryShape) (code : List NodeShape) (s : RunShape) →
        IsCore h code state.old s → let f = future_shape future.now in
        (x : IsNeeded s number loc f) →
        OnOk result (IsNeedDelivered h code s number loc f x state.new) }
    ensures entries { OnErr result
        (entries_in state.new.journal ≡ entries_in state.old.journal) }
{
    state.journal.reserve(state.seats.len() + 1)?;
    let to = state.seats.name(number).copy(state.alloc)?;
    let entry = need_entry(state.alloc, future, to, loc)?;
    let Some(mut actor) = state.seats.take(number) else {
        unreachable!()
    };
    let Some(value) = state.futures.value(future) else {
        unreachable!()
    };
    let here = actor.as_mut();
    here.fill(state.alloc, loc, value)?;
    rank_again(state.alloc, &mut state.ranks, &state.futures, number, here)?;
    let _came = state.seats.put(number, actor);
    state.journal.note(entry);
    Ok(())
}

fn need_entry(
    alloc: Global,
    future: &FutureName,
    to: ActivityName,
    loc: Place,
) -> Result<Entry, AllocError>
    ensures entry { IfOk result
        (λ e. entry_shape e ≡ Delivered (Need (future_shape future.now) to loc)) }
{
    let future = future.copy(alloc)?;
    let loc = loc as u128;
    let need = Delivery::Need { future, to, loc };
    Ok(Entry::Delivered(Box::new(alloc, need)?))
}

//! A value that goes along an edge.

ghost use Rattle.std.specs.Prelude.{◌≡◌, IfOk, List, OnErr, OnOk};
ghost use Rattle.asp_model.specs.History.{Delivered, Edge, HistoryShape};
ghost use Rattle.asp_model.specs.Shapes.{entry_shape, future_shape};
ghost use Rattle.def_journals.specs.Journals.{RunShape};
ghost use Rattle.code_table.specs.declared.code.Node.{Node as NodeShape};
ghost use Rattle.core_state.specs.Journal.{entries_in};
ghost use Rattle.core_state.specs.Cores.{IsCore};
ghost use Rattle.core_state.specs.Deliveries.{IsEdgeDelivered, IsPassed, IsSomePassed};

use crate::standing::rank_again;
use crate::state::CoreState;
use asp_model::{ActivityName, Delivery, Entry, FutureName};
use std::alloc::{AllocError, Global};

/// The value of a future goes to each place of an activity that is in where the future is held,
/// since somebody passed it. Where nothing was owed to the activity, it stands as before.
pub fn deliver_edge(
    state: &mut CoreState,
    number: u32,
    from: &ActivityName,
    future: &FutureName,
) -> Result<(), AllocError>
    requires passed { IsSomePassed state.old number (future_shape future.now) from.now }
    ensures delivered { (h : HistoryShape) (code : List NodeShape) (s : RunShape) →
        IsCore h code state.old s → let f = future_shape future.now in
        (x : IsPassed s number f from.now) →
        OnOk result (IsEdgeDelivered h code s number f from.now x state.new) }
    ensures entries { OnErr result
        (entries_in state.new.journal ≡ entries_in state.old.journal) }
{
    state.journal.reserve(state.seats.len() + 1)?;
    let to = state.seats.name(number).copy(state.alloc)?;
    let entry = edge_entry(state.alloc, future, from, to)?;
    let Some(mut actor) = state.seats.take(number) else {
        unreachable!()
    };
    let Some(value) = state.futures.value(future) else {
        unreachable!()
    };
    let here = actor.as_mut();
    here.fill_each(state.alloc, future, value)?;
    rank_again(state.alloc, &mut state.ranks, &state.futures, number, here)?;
    let _came = state.seats.put(number, actor);
    state.journal.note(entry);
    Ok(())
}

fn edge_entry(
    alloc: Global,
    future: &FutureName,
    from: &ActivityName,
    to: ActivityName,
) -> Result<Entry, AllocError>
    ensures entry { let edge = Edge (future_shape future.now) from.now to in
        IfOk result (λ e. entry_shape e ≡ Delivered edge) }
{
    let future = future.copy(alloc)?;
    let from = from.copy(alloc)?;
    let edge = Delivery::Edge { future, from, to };
    Ok(Entry::Delivered(Box::new(alloc, edge)?))
}

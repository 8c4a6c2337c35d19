//! Where a delivery goes, if it may be entered.

ghost use Rattle.std.specs.Prelude.{◌≡◌, ◌<◌, ◌≤◌, IfSome, List, None, is_some, length};
ghost use Rattle.asp_model.specs.Chase.{chase};
ghost use Rattle.asp_model.specs.History.{HistoryShape};
ghost use Rattle.asp_model.specs.Shapes.{future_shape};
ghost use Rattle.asp_model.specs.Store.{cell as cell_in};
ghost use Rattle.code_table.specs.Shapes.{cell_shape, store_of};
ghost use Rattle.future_table.specs.Values.{values_of};
ghost use Rattle.def_journals.specs.Deliveries.{value_of};
ghost use Rattle.def_journals.specs.Journals.{RunShape};
ghost use Rattle.code_table.specs.declared.code.Node.{Node as NodeShape};
ghost use Rattle.step_activity.specs.Stances.{IsFutureOf};
ghost use Rattle.core_state.specs.Cores.{IsCore, IsSomeCore};
ghost use Rattle.core_state.specs.Targets.{IsEdgeTarget, IsNeedTarget, IsSeatedAs};

use crate::state::CoreState;
use asp_model::{ActivityName, FutureName};
use code_table::{Place, View};
use future_table::{Chase, FutureTable};
use object_store::Store;
use step_activity::Actor;

/// An activity that is in, with its number.
#[derive(Clone, Copy)]
pub struct Seated<'a> {
    pub number: u32,
    pub actor: &'a Actor,
}

/// A place of an activity that is in.
#[derive(Clone, Copy)]
pub struct Spot {
    pub number: u32,
    pub loc: Place,
}

/// The activity of a name, if it is in.
fn find_seated<'a>(state: &'a CoreState, name: &ActivityName) -> Option<Seated<'a>>
    requires core { IsSomeCore state.now }
    ensures seated { (h : HistoryShape) (code : List NodeShape) (s : RunShape) →
        IsCore h code state.now s → IsSeatedAs s name.now result }
{
    let Some(number) = state.seats.number_of(name) else {
        return None;
    };
    match state.seats.get(number) {
        Some(actor) => Some(Seated { number, actor }),
        None => None,
    }
}

/// A place of a store, where it has that many cells.
fn place_in(store: &Store, loc: u128) -> Option<Place>
    ensures place { IfSome result (λ p. p ≡ loc) }
    ensures within { IfSome result (λ p. p < length store.now.cells) }
    ensures none { result ≡ None → length store.now.cells ≤ loc }
{
    if loc >= store.len() as u128 {
        return None;
    }
    Some(loc as usize)
}

fn future_of(cell: View<'_>) -> Option<&FutureName>
    ensures future { (k : List NodeShape) → IsFutureOf (cell_shape k cell.entry) result }
{
    match cell {
        View::Future(future) => Some(&future.name),
        View::Number(_) => None,
        View::Object(_) => None,
        View::Reference(_) => None,
        View::Group(_) => None,
    }
}

/// The future at a place of a store.
fn future_at(store: &Store, place: Place) -> Option<&FutureName>
    requires within { place < length store.now.cells }
    ensures held { (k : List NodeShape) →
        IsFutureOf (cell_in (store_of k store.now.cells) place) result }
{
    future_of(store.cell(place))
}

/// Whether a future leads to the value of another one, or of its own.
fn leads_to(futures: &FutureTable, held: &FutureName, future: &FutureName) -> bool
    ensures leads { let end = chase (values_of futures.now) (future_shape held.now) in
        result ≡ is_some (value_of (future_shape future.now) end) }
{
    match futures.chase(held) {
        Chase::Value(name) => future == name,
        Chase::Unfilled(_) => false,
        Chase::Cycle(_) => false,
    }
}

/// The number of the receiver of an edge, where it is in, the future has a value, and somebody has
/// the name of who passed it.
pub fn edge_target(
    state: &CoreState,
    future: &FutureName,
    from: &ActivityName,
    to: &ActivityName,
) -> Option<u32>
    requires core { IsSomeCore state.now }
    ensures target { (h : HistoryShape) (code : List NodeShape) (s : RunShape) →
        IsCore h code state.now s →
        IsEdgeTarget s (future_shape future.now) from.now to.now result }
{
    let Some(_sender) = state.seats.number_of(from) else {
        return None;
    };
    let Some(_value) = state.futures.value(future) else {
        return None;
    };
    match find_seated(state, to) {
        Some(receiver) => Some(receiver.number),
        None => None,
    }
}

/// The receiver of a value that is needed, with the place, where it is in, and the place holds a
/// future that leads to the value.
pub fn need_target(
    state: &CoreState,
    future: &FutureName,
    to: &ActivityName,
    loc: u128,
) -> Option<Spot>
    requires core { IsSomeCore state.now }
    ensures target { (h : HistoryShape) (code : List NodeShape) (s : RunShape) →
        IsCore h code state.now s →
        IsNeedTarget s (future_shape future.now) to.now loc result }
{
    let Some(receiver) = find_seated(state, to) else {
        return None;
    };
    let store = receiver.actor.store();
    let Some(loc) = place_in(store, loc) else {
        return None;
    };
    let Some(held) = future_at(store, loc) else {
        return None;
    };
    if !leads_to(&state.futures, held, future) {
        return None;
    }
    let number = receiver.number;
    Some(Spot { number, loc })
}

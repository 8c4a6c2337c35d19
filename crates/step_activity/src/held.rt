//! The first strict operand that is a future.

ghost use Rattle.std.specs.Prelude.{◌≡◌, ◌<◌, ◌≤◌, ◌∷◌, List, None, [], length, take, true};
ghost use Rattle.asp_model.specs.Contraction.{first_future, is_future, members_of};
ghost use Rattle.asp_model.specs.Store.{cell as cell_in};
ghost use Rattle.code_table.specs.declared.code.Node.{Node as NodeShape};
ghost use Rattle.code_table.specs.Shapes.{cell_shape, store_of};
ghost use Rattle.code_table.specs.Places.{placed};
ghost use Rattle.law_steps.specs.Linked.{Each};
ghost use Rattle.step_activity.specs.Clear.{AreClearAt, IsClear};
ghost use Rattle.step_activity.specs.Stances.{IsFutureOf, IsHeld, held_places};

use asp_model::FutureName;
use code_table::{Place, Places, View};
use object_store::Store;
use step_reads::Strict;

/// A future, and the place where it stands.
#[derive(Clone, Copy)]
pub struct Held<'a> {
    pub place: Place,
    pub future: &'a FutureName,
}

fn future_of(cell: View<'_>) -> Option<&FutureName>
    ensures future { (k : List NodeShape) → IsFutureOf (cell_shape k cell.entry) result }
{
    match cell {
        View::Future(future) => Some(&future.name),
        View::Number(_) => None,
        View::Object(_) => None,
        View::Reference(_) => None,
        View::Group(_) => None,
    }
}

fn future_at(store: &Store, place: Place) -> Option<Held<'_>>
    ensures held { (k : List NodeShape) → let s = store_of k store.now.cells in
        IsHeld s (place ∷ []) result }
{
    if place >= store.len() {
        return None;
    }
    match future_of(store.cell(place)) {
        Some(future) => Some(Held { place, future }),
        None => None,
    }
}

/// The first of these places that holds a future, where the first so many hold none: these are not
/// looked at.
fn first_of<'a>(store: &'a Store, places: &Places, from: usize) -> Option<Held<'a>>
    ensures held { (k : List NodeShape) → let s = store_of k store.now.cells in
        first_future s (take from (placed places.now)) ≡ None → IsHeld s (placed places.now) result }
{
    for at in from..places.len() {
        if let Some(held) = future_at(store, places.at(at)) {
            return Some(held);
        }
    }
    None
}

/// The members of a group; none of what is no group.
fn members_of(cell: View<'_>) -> Places<'_>
    ensures members { (k : List NodeShape) → placed result ≡ members_of (cell_shape k cell.entry) }
{
    match cell {
        View::Group(members) => members,
        View::Number(_) => Places::of(&[]),
        View::Object(_) => Places::of(&[]),
        View::Reference(_) => Places::of(&[]),
        View::Future(_) => Places::of(&[]),
    }
}

fn members_at(store: &Store, place: Place) -> Places<'_>
    ensures members { (k : List NodeShape) →
        placed result ≡ members_of (cell_in (store_of k store.now.cells) place) }
{
    if place >= store.len() {
        return Places::of(&[]);
    }
    members_of(store.cell(place))
}

/// The first of these operands that is a future, as the store has them: no value is read. The first
/// so many members of a group are known to have come, and are not looked at.
pub fn first_held<'a>(store: &'a Store, strict: Strict, clear: usize) -> Option<Held<'a>>
    ensures held { (k : List NodeShape) → let s = store_of k store.now.cells in
        AreClearAt s strict clear → IsHeld s (held_places s strict) result }
{
    match strict {
        Strict::Nothing => None,
        Strict::One(place) => future_at(store, place),
        Strict::Two(first, second) => match future_at(store, first) {
            Some(held) => Some(held),
            None => future_at(store, second),
        },
        Strict::Members(place) => match future_at(store, place) {
            Some(held) => Some(held),
            None => first_of(store, &members_at(store, place), clear),
        },
    }
}

fn is_future(cell: View<'_>) -> bool
    ensures { (k : List NodeShape) → result ≡ is_future (cell_shape k cell.entry) }
{
    match cell {
        View::Future(_) => true,
        View::Number(_) => false,
        View::Object(_) => false,
        View::Reference(_) => false,
        View::Group(_) => false,
    }
}

/// Whether a place of a store holds a future.
pub fn holds_future(store: &Store, place: Place) -> bool
    requires within { place < length store.now.cells }
    ensures holds { (k : List NodeShape) →
        result ≡ is_future (cell_in (store_of k store.now.cells) place) }
{
    is_future(store.cell(place))
}

/// Whether a place is in a store, and holds no future.
fn is_clear(store: &Store, place: Place) -> bool
    ensures clear { (k : List NodeShape) → result ≡ true →
        IsClear (store_of k store.now.cells) place }
{
    if place >= store.len() {
        return false;
    }
    if holds_future(store, place) {
        return false;
    }
    true
}

/// How many of these places are clear before the first that is not, where the first so many are:
/// these are not looked at.
fn clear_from(store: &Store, places: &Places, from: usize) -> usize
    ensures clear { (k : List NodeShape) → let s = store_of k store.now.cells in
        Each (IsClear s) (take from (placed places.now)) → Each (IsClear s) (take result (placed places.now)) }
    ensures within { result ≤ length (placed places.now) }
{
    for at in from..places.len() {
        if !is_clear(store, places.at(at)) {
            return at;
        }
    }
    places.len()
}

/// How many members of a group that is waited for have come before the first that has not, where the
/// first so many are known to have. It looks at the others alone.
pub fn clear_at(store: &Store, strict: Strict, from: usize) -> usize
    ensures clear { (k : List NodeShape) → let s = store_of k store.now.cells in
        AreClearAt s strict from → AreClearAt s strict result }
{
    match strict {
        Strict::Members(place) => clear_from(store, &members_at(store, place), from),
        Strict::Nothing => from,
        Strict::One(_) => from,
        Strict::Two(_, _) => from,
    }
}

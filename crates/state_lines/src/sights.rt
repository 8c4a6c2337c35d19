//! What is read at a place: a future with a value is read as the value's root.

ghost use Rattle.std.specs.Prelude.{◌≡◌};
ghost use Rattle.def_paths.specs.Places.{Place as PlaceShape, entered_by, written};
ghost use Rattle.state_lines.specs.Sights.{IsRootOf, Sees, seen_shape};
ghost use Rattle.state_lines.specs.States.{side_in};
ghost use Rattle.run_ends.specs.Reads.{IsAt, seen_value};

use crate::seen::{Seen, in_store, in_value};
use crate::state::State;
use code_table::Parcel;
use run_ends::{At, value_of};

/// What is read at a place, and the value that is entered there.
#[derive(Clone, Copy)]
pub struct Sight<'a> {
    pub seen: Seen<'a>,
    pub value: Option<&'a Parcel>,
}

/// What is read there.
pub fn look_at<'a>(state: &State<'a>, at: At<'a>) -> Sight<'a>
    ensures sees { (p : PlaceShape) → let a = side_in state.now in
        IsAt a at.entry p → Sees a p result }
{
    match at {
        At::Store(place) => look(state, in_store(state.code, state.store, place)),
        At::Value(value, 0) => root_of(value),
        At::Value(value, place) => look(state, in_value(value, place)),
    }
}

fn root_of(value: &Parcel) -> Sight<'_>
    ensures root { IsRootOf value.now result }
{
    Sight {
        seen: in_value(value, 0),
        value: Some(value),
    }
}

// What is read where this cell is written.
fn look<'a>(state: &State<'a>, seen: Seen<'a>) -> Sight<'a>
    ensures sees { (p : PlaceShape) → let a = side_in state.now in
        seen_shape seen.entry ≡ written a p → Sees a p result }
{
    match value_at(state, seen) {
        Some(value) => root_of(value),
        None => Sight { seen, value: None },
    }
}

fn value_at<'a>(state: &State<'a>, seen: Seen<'a>) -> Option<&'a Parcel>
    ensures value { seen_value result
        ≡ entered_by (side_in state.now).values (seen_shape seen.entry) }
{
    match seen {
        Seen::Future(future) => value_of(state.futures, future),
        _ => None,
    }
}

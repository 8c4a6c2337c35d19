//! The members of a group that is waited for, as they are read without a change.

ghost use Rattle.std.specs.Prelude.{◌≡◌, None, take};
ghost use Rattle.std.specs.Option.{option_map};
ghost use Rattle.asp_model.specs.Chase.{chase};
ghost use Rattle.asp_model.specs.Contraction.{members_of};
ghost use Rattle.asp_model.specs.Shapes.{future_shape};
ghost use Rattle.asp_model.specs.Store.{cell as cell_in};
ghost use Rattle.code_table.specs.Shapes.{parcel_shape, store_of};
ghost use Rattle.future_table.specs.Values.{values_of};
ghost use Rattle.code_table.specs.Places.{placed};
ghost use Rattle.step_reads.specs.Passed.{members_passed, value_passed};
ghost use Rattle.step_reads.specs.Sights.{first_missed, members_missed, value_missed};

use crate::reading::{Operand, cell_of, root_of, through};
use crate::seen::{Seen, members_of, read};
use asp_model::FutureName;
use code_table::{Code, Parcel, Place, Places};
use future_table::{Chase, FutureTable};
use object_store::Store;

/// The first future that a member of a group awaits, and how many members before it have values.
#[derive(Clone, Copy)]
pub struct Missed<'a> {
    pub future: Option<&'a FutureName>,
    pub passed: usize,
}

/// The first future that is awaited at these places of a store, of which the first so many await none.
fn missed_at<'a>(
    code: &'a Code,
    store: &'a Store,
    futures: &'a FutureTable,
    places: &Places,
    from: usize,
) -> Missed<'a>
    requires passed { let s = store_of code.now store.now.cells in
        first_missed (chase (values_of futures.now)) s (take from (placed places.now)) ≡ None }
    ensures missed { let s = store_of code.now store.now.cells in
        option_map (λ f. future_shape f.now) result.future
        ≡ first_missed (chase (values_of futures.now)) s (placed places.now) }
    ensures passed { let s = store_of code.now store.now.cells in
        first_missed (chase (values_of futures.now)) s (take result.passed (placed places.now)) ≡ None }
{
    for at in from..places.len() {
        match through(futures, read(code, store, places.at(at))) {
            Operand::Awaits(future) => {
                return Missed {
                    future: Some(future),
                    passed: at,
                };
            }
            Operand::Reads(_seen) => {}
        }
    }
    Missed {
        future: None,
        passed: places.len(),
    }
}

/// The first future that is awaited among the members of a value that is a group, of which the first
/// so many await none.
fn missed_in<'a>(futures: &'a FutureTable, parcel: &'a Parcel, from: usize) -> Missed<'a>
    requires passed { let cells = (parcel_shape parcel.now).cells in
        let members = take from (members_of (cell_in cells 0)) in
        first_missed (chase (values_of futures.now)) cells members ≡ None }
    ensures missed { let cells = (parcel_shape parcel.now).cells in
        option_map (λ f. future_shape f.now) result.future
        ≡ first_missed (chase (values_of futures.now)) cells (members_of (cell_in cells 0)) }
    ensures passed { let cells = (parcel_shape parcel.now).cells in
        let members = take result.passed (members_of (cell_in cells 0)) in
        first_missed (chase (values_of futures.now)) cells members ≡ None }
{
    let places = members_of(root_of(parcel));
    for at in from..places.len() {
        match through(futures, cell_of(parcel, places.at(at))) {
            Operand::Awaits(future) => {
                return Missed {
                    future: Some(future),
                    passed: at,
                };
            }
            Operand::Reads(_seen) => {}
        }
    }
    Missed {
        future: None,
        passed: places.len(),
    }
}

fn missed_value<'a>(futures: &'a FutureTable, future: &'a FutureName, from: usize) -> Missed<'a>
    requires passed { let chases = chase (values_of futures.now) in
        value_passed chases (chases (future_shape future.now)) from }
    ensures missed { let chases = chase (values_of futures.now) in
        option_map (λ f. future_shape f.now) result.future
        ≡ value_missed chases (chases (future_shape future.now)) }
    ensures passed { let chases = chase (values_of futures.now) in
        value_passed chases (chases (future_shape future.now)) result.passed }
{
    match futures.chase(future) {
        Chase::Unfilled(_) => none_missed(),
        Chase::Cycle(_) => none_missed(),
        Chase::Value(name) => match futures.value(name) {
            Some(value) => missed_in(futures, value, from),
            None => none_missed(),
        },
    }
}

/// The first future that a member of the group at a place awaits, where the group may be the value
/// of a future, and its first so many members await none.
pub fn missed_member<'a>(
    code: &'a Code,
    store: &'a Store,
    futures: &'a FutureTable,
    place: Place,
    from: usize,
) -> Missed<'a>
    requires passed { let s = store_of code.now store.now.cells in
        members_passed (chase (values_of futures.now)) s (cell_in s place) from }
    ensures missed { let s = store_of code.now store.now.cells in
        option_map (λ f. future_shape f.now) result.future
        ≡ members_missed (chase (values_of futures.now)) s (cell_in s place) }
    ensures passed { let s = store_of code.now store.now.cells in
        members_passed (chase (values_of futures.now)) s (cell_in s place) result.passed }
{
    match read(code, store, place) {
        Seen::Future(future) => missed_value(futures, future, from),
        Seen::Group(members) => missed_at(code, store, futures, &members, from),
        Seen::Number(_) => none_missed(),
        Seen::Object(_, _) => none_missed(),
        Seen::Reference(_) => none_missed(),
    }
}

/// No member is there.
fn none_missed<'a>() -> Missed<'a>
    ensures future { result.future ≡ None }
    ensures passed { result.passed ≡ 0 }
{
    Missed {
        future: None,
        passed: 0,
    }
}

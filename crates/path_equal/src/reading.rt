//! What a path reads.

ghost use Rattle.std.specs.Prelude.{◌≡◌, Some};
ghost use Rattle.asp_model.specs.Intent.{StatusShape};
ghost use Rattle.future_table.specs.Values.{values_of};
ghost use Rattle.def_paths.specs.PathLabels.{leads_by};
ghost use Rattle.def_paths.specs.Places.{In_store, found_at};
ghost use Rattle.def_paths.specs.Snapshots.{SnapshotShape, read_path as path_read};
ghost use Rattle.path_equal.specs.Reading.{
  found_of,
  found_shape,
  labels_shape,
  root_in,
  root_shape,
};
ghost use Rattle.state_lines.specs.Sights.{seen_shape};
ghost use Rattle.state_lines.specs.States.{IsStateOf, IsTermOf, side_in};
ghost use Rattle.state_lines.specs.Texts.{shown_by};

use crate::children::child;
use crate::labels::{PathLabel, Root};
use crate::stack::nth_place;
use asp_model::{ActivityName, FutureName};
use code_table::{Code, Object, Place};
use future_table::FutureTable;
use run_ends::{At, awaited};
use state_lines::{Seen, State, look_at};

/// What is found at the end of a path.
#[derive(Clone, Copy)]
pub enum Found<'a> {
    Number(i64),
    /// An object, and the code that has its class, with the labels of its fields and its methods.
    Object(Object<'a>, &'a Code),
    Reference(&'a ActivityName),
    /// A group of so many members.
    Group(usize),
    /// A future without a value: the one that is awaited, or that which names its cycle.
    Unfilled(&'a FutureName),
    /// The root or a label is not there.
    Nothing,
}

/// What a path finds from a root, with each filled future on the way read as unpacked at its place.
pub fn read_path<'a>(state: &State<'a>, root: Root, path: &[PathLabel]) -> Found<'a>
    // for what the state stands for
    ensures found { (s : SnapshotShape) (status : StatusShape) → IsStateOf state.now s status →
        IsTermOf state.now s →
        let values = values_of state.now.futures.now in
        let labels = labels_shape path.now in
        found_shape result ≡ found_of (path_read values status s (root_shape root) labels) }
{
    match root_place(state, root) {
        Some(place) => read_from(state, place, path),
        None => Found::Nothing,
    }
}

fn root_place(state: &State, root: Root) -> Option<Place>
    ensures place { (s : SnapshotShape) → IsTermOf state.now s →
        result ≡ root_in state.now s root }
{
    match root {
        Root::Active => Some(state.active),
        Root::Value => state.result,
        Root::TermAt(number) => nth_place(state.code, state.machine, number),
    }
}

fn read_from<'a>(state: &State<'a>, place: Place, path: &[PathLabel]) -> Found<'a>
    ensures found { let a = side_in state.now in
        let end = leads_by a (labels_shape path.now) (In_store place) in
        found_shape result ≡ found_of (found_at a end) }
{
    let mut at = At::Store(place);
    for label in path {
        match child(at, look_at(state, at), label) {
            Some(next) => at = next,
            None => return Found::Nothing,
        }
    }
    found_as(state.futures, look_at(state, at).seen)
}

#[tactic(auto, using(crate::proofs::ReadLemmas::object_found))]
fn found_as<'a>(futures: &'a FutureTable, seen: Seen<'a>) -> Found<'a>
    ensures found { let shown = shown_by (values_of futures.now) (seen_shape seen.entry) in
        found_shape result ≡ found_of (Some shown) }
{
    match seen {
        Seen::Number(number) => Found::Number(number),
        Seen::Object(object, code) => Found::Object(object, code),
        Seen::Reference(name) => Found::Reference(name),
        Seen::Future(future) => Found::Unfilled(awaited(futures, future)),
        Seen::Group(members) => Found::Group(members.len()),
    }
}

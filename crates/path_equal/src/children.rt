//! Which cell a step of a path leads to.

ghost use Rattle.std.specs.Prelude.{◌≡◌, drop, slice_get};
ghost use Rattle.def_paths.specs.Places.{
  Place as PlaceShape,
  Side,
  child_by,
  children,
  entered,
  found,
};
ghost use Rattle.def_paths.specs.PathLabels.{
  To_captured,
  To_field,
  To_member,
  number_by,
  numbered_child,
};
ghost use Rattle.deep_copy.specs.Reached.{used_places};
ghost use Rattle.path_equal.specs.Reading.{
  IsAtChild,
  captured_in as captured_of,
  child_cell,
  label_shape,
};
ghost use Rattle.code_table.specs.Places.{placed};
ghost use Rattle.state_lines.specs.Sights.{Sees, seen_shape};
ghost use Rattle.run_ends.specs.Reads.{IsAt, seen_value};

use crate::labels::PathLabel;
use asp_model::Label;
use code_table::{MethodCode, Parcel, Place, Places};
use run_ends::At;
use state_lines::{Seen, Sight};

/// Where a step leads to from a place, if its label is there.
pub fn child<'a>(at: At<'a>, sight: Sight<'a>, label: &PathLabel) -> Option<At<'a>>
    ensures child { (a : Side) (p : PlaceShape) → IsAt a at.entry p → Sees a p sight.entry →
        let number = number_by (found a p) (label_shape label.now) in
        IsAtChild a result (numbered_child (children a p) number) }
{
    match cell(sight.seen, label) {
        Some(cell) => Some(beside(at, sight.value, cell)),
        None => None,
    }
}

// Where a cell stands that is held at a place.
fn beside<'a>(at: At<'a>, value: Option<&'a Parcel>, cell: Place) -> At<'a>
    ensures at { (a : Side) (p : PlaceShape) → IsAt a at.entry p → seen_value value.entry ≡ entered a p
        → IsAt a result (child_by (entered a p) p cell) }
{
    match value {
        Some(value) => At::Value(value, cell),
        None => match at {
            At::Store(_) => At::Store(cell),
            At::Value(value, _) => At::Value(value, cell),
        },
    }
}

// The cell that a step leads to.
fn cell(seen: Seen, label: &PathLabel) -> Option<Place>
    ensures cell { result ≡ child_cell (seen_shape seen.entry) (label_shape label.now) }
{
    match label {
        PathLabel::Field(label) => field(seen, label),
        PathLabel::Member(number) => member(seen, *number),
        PathLabel::Captured { method, nth } => captured(seen, method, *nth),
    }
}

fn field(seen: Seen, label: &Label) -> Option<Place>
    ensures cell { result ≡ child_cell (seen_shape seen.entry) (To_field label.now.text) }
{
    let Seen::Object(object, code) = seen else {
        return None;
    };
    let class = code.class(object.class)?;
    match class.field(label) {
        Some(number) => object.places.get(number),
        None => None,
    }
}

fn member(seen: Seen, number: usize) -> Option<Place>
    ensures cell { result ≡ child_cell (seen_shape seen.entry) (To_member number) }
{
    let Seen::Group(members) = seen else {
        return None;
    };
    members.get(number)
}

fn captured(seen: Seen, method: &Label, nth: usize) -> Option<Place>
    ensures cell { result ≡ child_cell (seen_shape seen.entry) (To_captured method.now.text nth) }
{
    let Seen::Object(object, code) = seen else {
        return None;
    };
    let class = code.class(object.class)?;
    let held = behind_fields(&object.places, class.fields.len());
    captured_in(&class.methods, &held, method, nth)
}

// Behind the places of so many fields.
fn behind_fields<'a>(places: &Places<'a>, fields: usize) -> Places<'a>
    ensures { placed result ≡ drop fields (placed places.now) }
{
    places.behind(fields.min(places.len()))
}

// What methods captured stands behind each other.
fn captured_in(methods: &[MethodCode], held: &Places, label: &Label, nth: usize) -> Option<Place>
    ensures cell { result ≡ captured_of label.now.text nth methods.now (placed held.now) }
{
    let mut start = 0;
    for method in methods {
        let count = (held.len() - start).min(method.captured.len());
        if label.text == method.label.text {
            return used(&method.uses, &held.behind(start).first(count), nth);
        }
        start += count;
    }
    None
}

#[tactic(auto, using(crate::proofs::ReadLemmas::used_missing, crate::proofs::ReadLemmas::used_here, crate::proofs::ReadLemmas::used_later))]
fn used(uses: &[usize], captured: &Places, nth: usize) -> Option<Place>
    ensures cell { result ≡ slice_get (used_places (placed captured.now) uses.now) nth }
{
    let mut left = nth;
    for slot in uses {
        if *slot >= captured.len() {
            continue;
        }
        if left == 0 {
            return Some(captured.at(*slot));
        }
        left -= 1;
    }
    None
}

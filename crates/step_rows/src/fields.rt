//! Fields of objects.

ghost use Rattle.std.specs.Prelude.{◌≡◌, IfOk, length};
ghost use Rattle.asp_model.specs.Contraction.{get_row, put_row};
ghost use Rattle.code_table.specs.Classes.{class_at};
ghost use Rattle.code_table.specs.Cells.{CodedStore, Object as object_with, cell_at, coded};
ghost use Rattle.code_table.specs.Shapes.{cell_of, cell_shape, class_object, store_of};
ghost use Rattle.code_table.specs.Places.{placed};
ghost use Rattle.step_rows.specs.Decisions.{decided, read};

use crate::decision::Decision;
use asp_model::Fault;
use code_table::{Code, KeyedLabel, Object, Place, Places, View};
use std::alloc::AllocError;

/// The place of a field of an object.
#[inline(always)]
fn get_in(code: &Code, object: Object, label: &KeyedLabel) -> Result<Decision, AllocError>
    ensures row { let l = label.now.label.text in
        (s : CodedStore) → IfOk result (λ d. get_row (store_of code.now s) l
        (class_object code.now (placed object.entry.places) (class_at code.now object.entry.class))
        ≡ decided code.now s d) }
{
    let Some(class) = code.class(object.class) else {
        return Ok(Decision::Faults(Fault::NoField));
    };
    let Some(field) = class.field_keyed(label) else {
        return Ok(Decision::Faults(Fault::NoField));
    };
    let Some(place) = object.places.get(field) else {
        return Err(AllocError);
    };
    Ok(Decision::Stays(place))
}

/// An access to a field.
#[inline(always)]
pub fn get(
    code: &Code,
    cell: View,
    label: &KeyedLabel,
    place: Place,
) -> Result<Decision, AllocError>
    ensures row { let l = label.now.label.text in
        (s : CodedStore) → IfOk result
        (λ d. read place (get_row (store_of code.now s) l) (cell_shape code.now cell.entry)
        ≡ decided code.now s d) }
{
    match cell {
        View::Object(object) => get_in(code, object, label),
        View::Reference(_) => Ok(Decision::Faults(Fault::ActiveField)),
        View::Future(_) => Ok(Decision::Needs(place)),
        View::Number(_) => Ok(Decision::Faults(Fault::NotObject)),
        View::Group(_) => Ok(Decision::Faults(Fault::NotObject)),
    }
}

/// Another place in a field of an object, which stands at a place.
#[inline(always)]
fn put_in(
    code: &Code,
    object: Object,
    label: &KeyedLabel,
    at: Place,
    to: Place,
) -> Result<Decision, AllocError>
    ensures row { (s : CodedStore) → cell_at s at ≡ object_with object.entry.class (placed object.entry.places) →
        IfOk result (λ d. put_row (store_of code.now s) label.now.label.text at to
        (class_object code.now (placed object.entry.places) (class_at code.now object.entry.class))
        ≡ decided code.now s d) }
{
    let Some(class) = code.class(object.class) else {
        return Ok(Decision::Faults(Fault::NoField));
    };
    let Some(field) = class.field_keyed(label) else {
        return Ok(Decision::Faults(Fault::NoField));
    };
    if field >= object.places.len() {
        return Err(AllocError);
    }
    Ok(Decision::Puts {
        object: at,
        field,
        to,
    })
}

/// Another place in a field of the cell at a place.
#[inline(always)]
pub fn put(
    code: &Code,
    cell: View,
    label: &KeyedLabel,
    at: Place,
    to: Place,
) -> Result<Decision, AllocError>
    ensures row { (s : CodedStore) → cell_at s at ≡ coded cell.entry → IfOk result
        (λ d. read at (put_row (store_of code.now s) label.now.label.text at to)
        (cell_shape code.now cell.entry) ≡ decided code.now s d) }
{
    match cell {
        View::Object(object) => put_in(code, object, label, at, to),
        View::Reference(_) => Ok(Decision::Faults(Fault::ActiveField)),
        View::Future(_) => Ok(Decision::Needs(at)),
        View::Number(_) => Ok(Decision::Faults(Fault::NotObject)),
        View::Group(_) => Ok(Decision::Faults(Fault::NotObject)),
    }
}

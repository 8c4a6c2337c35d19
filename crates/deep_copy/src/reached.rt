//! The places that a cell reaches: an object's fields', then those that stand in its methods, in text
//! order.

ghost use Rattle.std.specs.Prelude.{◌≡◌, ◌++◌, OnOk, slice_get};
ghost use Rattle.std.specs.Option.{option_to_list};
ghost use Rattle.asp_model.specs.Store.{reached};
ghost use Rattle.code_table.specs.Shapes.{cell_shape};
ghost use Rattle.deep_copy.specs.Reached.{
  captured_places,
  class_places,
  object_shape,
  used_places,
};
ghost use Rattle.code_table.specs.Places.{placed};

use code_table::{Class, Code, MethodCode, Object, Place, Places, View};
use smallvec::SmallVec;
use std::alloc::AllocError;

/// Places that are gathered. A few take no memory of their own.
pub type Gathered = SmallVec<Place, 8>;

/// Appends the places that a cell reaches.
pub fn note_reached(places: &mut Gathered, code: &Code, cell: View) -> Result<(), AllocError>
    ensures noted { OnOk result
        (places.new.items ≡ places.old.items ++ reached (cell_shape code.now cell.entry)) }
{
    match cell {
        View::Object(object) => note_object(places, code, object),
        View::Group(members) => note_all(places, &members),
        View::Number(_) | View::Reference(_) | View::Future(_) => Ok(()),
    }
}

fn note_object(places: &mut Gathered, code: &Code, object: Object) -> Result<(), AllocError>
    ensures { let noted = reached (object_shape code.now object.entry) in
        OnOk result (places.new.items ≡ places.old.items ++ noted) }
{
    match code.class(object.class) {
        Some(class) => note_places(places, class, &object.places),
        None => Ok(()),
    }
}

fn note_places(places: &mut Gathered, class: &Class, held: &Places) -> Result<(), AllocError>
    ensures { let noted = class_places class.now (placed held.now) in
        OnOk result (places.new.items ≡ places.old.items ++ noted) }
{
    let count = held.len().min(class.fields.len());
    note_all(places, &held.first(count))?;
    note_captured(places, &class.methods, &held.behind(count))
}

fn note_all(places: &mut Gathered, held: &Places) -> Result<(), AllocError>
    ensures { OnOk result (places.new.items ≡ places.old.items ++ placed held.now) }
{
    for at in 0..held.len() {
        places.push(held.at(at))?;
    }
    Ok(())
}

// What the methods captured stands behind each other.
fn note_captured(
    places: &mut Gathered,
    methods: &[MethodCode],
    held: &Places,
) -> Result<(), AllocError>
    ensures { let noted = captured_places methods.now (placed held.now) in
        OnOk result (places.new.items ≡ places.old.items ++ noted) }
{
    let mut start = 0;
    for method in methods {
        let count = (held.len() - start).min(method.captured.len());
        note_used(places, &method.uses, &held.behind(start).first(count))?;
        start += count;
    }
    Ok(())
}

fn note_used(places: &mut Gathered, uses: &[usize], captured: &Places) -> Result<(), AllocError>
    ensures { let noted = used_places (placed captured.now) uses.now in
        OnOk result (places.new.items ≡ places.old.items ++ noted) }
{
    for slot in uses {
        note_slot(places, captured, *slot)?;
    }
    Ok(())
}

fn note_slot(places: &mut Gathered, captured: &Places, slot: usize) -> Result<(), AllocError>
    ensures { let noted = option_to_list (slice_get (placed captured.now) slot) in
        OnOk result (places.new.items ≡ places.old.items ++ noted) }
{
    match captured.get(slot) {
        Some(place) => Ok(places.push(place)?),
        None => Ok(()),
    }
}

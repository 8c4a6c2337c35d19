//! Cells.
#![tactic(auto, using(checkpoint_text::proofs::WritingLemmas::writing))]

ghost use Rattle.std.specs.Prelude.{◌≡◌, OnOk, length, map};
ghost use Rattle.asp_model.specs.Contraction.{fields_at};
ghost use Rattle.checkpoint_text.specs.Items.{cell_items, list_items, number_items, place_items, store_items};
ghost use Rattle.checkpoint_text.specs.Writing.{Adds};
ghost use Rattle.code_table.specs.Classes.{class_at};
ghost use Rattle.code_table.specs.Shapes.{cell_shape, class_object, store_of};
ghost use Rattle.code_table.specs.Sound.{MethodsBelow, MethodsSound};
ghost use Rattle.code_table.specs.Tables.{object_of, pieces};
ghost use Rattle.frozen_runs.specs.Pieces.{place_piece};
ghost use Rattle.code_table.specs.Places.{placed};

use crate::methods::put_methods;
use asp_model::Label;
use checkpoint_text::{put_future, put_name, put_number, put_signed, put_text};
use code_reading::{DecodeError, behind};
use code_table::{Cells, Class, Code, Object, Places, View};
use std::alloc::{AllocError, Global};

/// Writes cells over this code.
pub fn put_cells(
    alloc: Global,
    text: &mut String,
    code: &Code,
    cells: &Cells,
) -> Result<(), DecodeError>
    ensures adds { let shapes = store_of code.now cells.now.items in
        OnOk result (Adds text.old (store_items shapes) text.new) }
{
    put_number(text, cells.len() as u64)?;
    for place in 0..cells.len() {
        put_cell(alloc, text, code, cells.view(place))?;
    }
    Ok(())
}

/// Writes a cell over this code.
pub fn put_cell(
    alloc: Global,
    text: &mut String,
    code: &Code,
    cell: View,
) -> Result<(), DecodeError>
    ensures adds { let shape = cell_shape code.now cell.entry in
        OnOk result (Adds text.old (cell_items shape) text.new) }
{
    match cell {
        View::Number(number) => {
            put_number(text, 0)?;
            put_signed(text, number)?;
            Ok(())
        }
        View::Object(object) => put_object(alloc, text, code, object),
        View::Reference(name) => {
            put_number(text, 2)?;
            put_name(text, name)?;
            Ok(())
        }
        View::Future(future) => {
            put_number(text, 3)?;
            put_future(text, &future.name)?;
            Ok(())
        }
        View::Group(members) => {
            put_number(text, 4)?;
            put_places(text, &members.listed(alloc)?)?;
            Ok(())
        }
    }
}

fn put_object(
    alloc: Global,
    text: &mut String,
    code: &Code,
    object: Object,
) -> Result<(), DecodeError>
    ensures adds { let class = class_at code.now object.entry.class in
        let shape = class_object code.now (placed object.entry.places) class in
        OnOk result (Adds text.old (cell_items shape) text.new) }
{
    match code.class(object.class) {
        None => {
            put_number(text, 1)?;
            put_number(text, 0)?;
            put_number(text, 0)?;
            Ok(())
        }
        Some(class) => {
            let places = object.places.listed(alloc)?;
            put_class(alloc, text, code, class, &places)
        }
    }
}

fn put_class(
    alloc: Global,
    text: &mut String,
    code: &Code,
    class: &Class,
    places: &[usize],
) -> Result<(), DecodeError>
    requires sound { MethodsSound (pieces code.now) class.now.methods.items }
    requires below { MethodsBelow (length code.now) class.now.methods.items }
    ensures adds { let shape = object_of (pieces code.now) class.now places.now in
        OnOk result (Adds text.old (cell_items shape) text.new) }
{
    put_number(text, 1)?;
    put_fields(text, &class.fields, places)?;
    let captured = behind(places, class.fields.len());
    put_methods(alloc, text, code, &class.methods, captured)?;
    Ok(())
}

// Writes fields with their places, as far as both go.
fn put_fields(text: &mut String, fields: &[Label], places: &[usize]) -> Result<(), AllocError>
    ensures adds { let shapes = fields_at (map (λ l. l.text) fields.now) places.now in
        OnOk result (Adds text.old (list_items place_items shapes) text.new) }
{
    let count = field_count(fields, places);
    put_number(text, count as u64)?;
    for index in 0..count {
        put_field(text, &fields[index], places[index])?;
    }
    Ok(())
}

fn put_field(text: &mut String, field: &Label, place: usize) -> Result<(), AllocError>
    ensures adds { OnOk result (Adds text.old (place_piece field.now place) text.new) }
{
    put_text(text, field.text.as_str())?;
    put_number(text, place as u64)
}

fn field_count(fields: &[Label], places: &[usize]) -> usize
    ensures count { result ≡ length (fields_at (map (λ l. l.text) fields.now) places.now) }
{
    if fields.len() < places.len() {
        fields.len()
    } else {
        places.len()
    }
}

/// Writes places.
pub fn put_places(text: &mut String, places: &[usize]) -> Result<(), AllocError>
    ensures adds { OnOk result (Adds text.old (list_items number_items places.now) text.new) }
{
    put_number(text, places.len() as u64)?;
    for place in places {
        put_number(text, *place as u64)?;
    }
    Ok(())
}

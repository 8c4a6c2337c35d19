//! Cells, parcels and requests.

ghost use Rattle.std.specs.Prelude.{codes, map};
ghost use Rattle.checkpoint_text.specs.Reading.{
  both,
  cell as cell_in,
  field as field_in,
  future as future_in,
  line_read,
  list_of,
  method as method_in,
  parcel as parcel_in,
  place as place_in,
  request as request_in,
};
ghost use Rattle.checkpoint_items.specs.Answers.{Finds, Says};
ghost use Rattle.checkpoint_reading.specs.Cells.{
  cell_shape,
  method_shape,
  object as object_in,
  parcel_shape,
  place_field,
  request_shape,
  value_shape,
};

use crate::parts::{CellText, ParcelText, RequestText};
use crate::terms::read_term;
use asp_model::{FutureName, Label, Method, Place};
use checkpoint_items::{
    Items, ReadError, end_line, items_behind, read_count, read_future, read_label, read_name,
    read_place, read_signed, read_text, read_words,
};
use std::alloc::Global;

/// A cell.
pub fn read_cell(alloc: Global, items: &mut Items<'_>) -> Result<CellText, ReadError>
    ensures read { Finds cell_shape (cell_in items.old) items.new result }
{
    match read_count(items)? {
        0 => Ok(CellText::Number(read_signed(items)?)),
        1 => read_object(alloc, items),
        2 => Ok(CellText::Reference(read_name(alloc, items)?)),
        3 => Ok(CellText::Future(read_future(alloc, items)?)),
        4 => Ok(CellText::Group(read_places(alloc, items)?)),
        _ => Err(ReadError::Malformed),
    }
}

fn read_object(alloc: Global, items: &mut Items<'_>) -> Result<CellText, ReadError>
    ensures read { Finds cell_shape (object_in items.old) items.new result }
{
    let fields = read_places_named(alloc, items)?;
    let methods = read_methods(alloc, items)?;
    Ok(CellText::Object { fields, methods })
}

fn read_places_named(alloc: Global, items: &mut Items<'_>) -> Result<Vec<(Label, Place)>, ReadError>
    ensures read { let reader = list_of field_in in
        Finds (λ v. map place_field v.items) (reader items.old) items.new result }
{
    let count = read_count(items)?;
    let mut fields = Vec::new(alloc);
    for _ in 0..count {
        fields.push(read_place_named(alloc, items)?)?;
    }
    Ok(fields)
}

fn read_place_named(alloc: Global, items: &mut Items<'_>) -> Result<(Label, Place), ReadError>
    ensures read { Finds place_field (field_in items.old) items.new result }
{
    let label = read_label(alloc, items)?;
    let place = read_place(items)?;
    Ok((label, place))
}

fn read_methods(alloc: Global, items: &mut Items<'_>) -> Result<Vec<Method>, ReadError>
    ensures read { let reader = list_of method_in in
        Finds (λ v. map method_shape v.items) (reader items.old) items.new result }
{
    let count = read_count(items)?;
    let mut methods = Vec::new(alloc);
    for _ in 0..count {
        methods.push(read_method(alloc, items)?)?;
    }
    Ok(methods)
}

fn read_method(alloc: Global, items: &mut Items<'_>) -> Result<Method, ReadError>
    ensures read { Finds method_shape (method_in items.old) items.new result }
{
    let label = read_label(alloc, items)?;
    let slf = read_text(alloc, items)?;
    let parameters = read_words(alloc, items)?;
    let body = read_term(alloc, items)?;
    Ok(Method {
        label,
        slf,
        parameters,
        body,
    })
}

fn read_places(alloc: Global, items: &mut Items<'_>) -> Result<Vec<Place>, ReadError>
    ensures read { Finds (λ v. v.items) (list_of place_in items.old) items.new result }
{
    let count = read_count(items)?;
    let mut places = Vec::new(alloc);
    for _ in 0..count {
        places.push(read_place(items)?)?;
    }
    Ok(places)
}

/// Cells.
pub fn read_cells(alloc: Global, items: &mut Items<'_>) -> Result<Vec<CellText>, ReadError>
    ensures read { let reader = list_of cell_in in
        Finds (λ v. map cell_shape v.items) (reader items.old) items.new result }
{
    let count = read_count(items)?;
    let mut cells = Vec::new(alloc);
    for _ in 0..count {
        cells.push(read_cell(alloc, items)?)?;
    }
    Ok(cells)
}

/// A parcel.
pub fn read_parcel(alloc: Global, items: &mut Items<'_>) -> Result<ParcelText, ReadError>
    ensures read { Finds parcel_shape (parcel_in items.old) items.new result }
{
    let cells = read_cells(alloc, items)?;
    let roots = read_places(alloc, items)?;
    Ok(ParcelText { cells, roots })
}

/// A request.
pub fn read_request(alloc: Global, items: &mut Items<'_>) -> Result<RequestText, ReadError>
    ensures read { Finds request_shape (request_in items.old) items.new result }
{
    let label = read_label(alloc, items)?;
    let sender = read_name(alloc, items)?;
    let future = read_future(alloc, items)?;
    let arguments = read_parcel(alloc, items)?;
    Ok(RequestText {
        label,
        sender,
        future,
        arguments,
    })
}

/// Requests.
pub fn read_requests(alloc: Global, items: &mut Items<'_>) -> Result<Vec<RequestText>, ReadError>
    ensures read { let reader = list_of request_in in
        Finds (λ v. map request_shape v.items) (reader items.old) items.new result }
{
    let count = read_count(items)?;
    let mut requests = Vec::new(alloc);
    for _ in 0..count {
        requests.push(read_request(alloc, items)?)?;
    }
    Ok(requests)
}

/// The line of values: each future that has one, with it.
pub fn read_values(alloc: Global, line: &[u8]) -> Result<Vec<(FutureName, ParcelText)>, ReadError>
    ensures values { let reader = list_of (both future_in parcel_in) in
        Says (λ v. map value_shape v.items) (line_read (codes "filled") reader line.now) result }
{
    let mut items = items_behind(line, b"filled".as_slice())?;
    let values = read_all_values(alloc, &mut items)?;
    end_line(&mut items)?;
    Ok(values)
}

fn read_all_values(
    alloc: Global,
    items: &mut Items<'_>,
) -> Result<Vec<(FutureName, ParcelText)>, ReadError>
    ensures read { let reader = list_of (both future_in parcel_in) in
        Finds (λ v. map value_shape v.items) (reader items.old) items.new result }
{
    let count = read_count(items)?;
    let mut values = Vec::new(alloc);
    for _ in 0..count {
        values.push(read_value(alloc, items)?)?;
    }
    Ok(values)
}

fn read_value(alloc: Global, items: &mut Items<'_>) -> Result<(FutureName, ParcelText), ReadError>
    ensures read { Finds value_shape (both future_in parcel_in items.old) items.new result }
{
    let future = read_future(alloc, items)?;
    let value = read_parcel(alloc, items)?;
    Ok((future, value))
}

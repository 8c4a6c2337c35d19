//! Cells: known and proper, with places below a size.

ghost use Rattle.std.specs.Prelude.{◌≡◌, ◌&&◌, length, map, nat_lt};
ghost use Rattle.std.specs.List.{list_all};
ghost use Rattle.checkpoint_reading.specs.Cells.{cell_shape, place_field};
ghost use Rattle.proper_terms.specs.Tests.{Tests};
ghost use Rattle.checkpoint_checks.specs.Maps.{activities_of, homes_of};
ghost use Rattle.checkpoint_checks.specs.Cells.{are_below, cell_fits, object_fits};

use crate::world::World;
use asp_model::{Label, Method, Place};
use checkpoint_reading::CellText;
use proper_terms::{Refusal, check_methods, check_object};
use std::alloc::Global;

fn check_place(size: Place, place: Place) -> Result<(), Refusal>
    ensures below { Tests (nat_lt place size) result }
{
    if place < size {
        Ok(())
    } else {
        Err(Refusal::Unsound)
    }
}

/// All these places are below a size.
pub fn check_places(size: Place, places: &[Place]) -> Result<(), Refusal>
    ensures below { Tests (are_below size places.now) result }
{
    for place in places {
        check_place(size, *place)?;
    }
    Ok(())
}

fn check_fields(size: Place, fields: &[(Label, Place)]) -> Result<(), Refusal>
    ensures below { let places = map (λ f. f.place) (map place_field fields.now) in
        Tests (are_below size places) result }
{
    for (_, place) in fields {
        check_place(size, *place)?;
    }
    Ok(())
}

fn check_stored(
    alloc: Global,
    size: Place,
    fields: &[(Label, Place)],
    methods: &[Method],
) -> Result<(), Refusal>
    ensures fits { Tests (object_fits size fields.now methods.now) result }
{
    check_object(alloc, fields, methods)?;
    check_fields(size, fields)?;
    check_methods(alloc, size, methods)
}

#[tactic(auto, using(crate::proofs::CellLemmas::object_laws))]
fn check_cell(alloc: Global, world: &World<'_>, size: Place, cell: &CellText) -> Result<(), Refusal>
    ensures fits { let known = cell_fits (activities_of world.now) (homes_of world.now) in
        Tests (known size (cell_shape cell.now)) result }
{
    match cell {
        CellText::Number(_) => Ok(()),
        CellText::Object { fields, methods } => check_stored(alloc, size, fields, methods),
        CellText::Reference(name) => world.check_reference(name),
        CellText::Future(future) => world.check_future(future),
        CellText::Group(members) => check_places(size, members),
    }
}

/// All cells are known and proper, with places below a size.
pub fn check_cells(
    alloc: Global,
    world: &World<'_>,
    size: Place,
    cells: &[CellText],
) -> Result<(), Refusal>
    ensures fit { let known = cell_fits (activities_of world.now) (homes_of world.now) in
        Tests (list_all (known size) (map cell_shape cells.now)) result }
{
    for cell in cells {
        check_cell(alloc, world, size, cell)?;
    }
    Ok(())
}

/// How many these are.
pub fn size_of(cells: &[CellText]) -> Place
    ensures size { result ≡ length (map cell_shape cells.now) }
{
    cells.len() as Place
}

//! Decisions that are done.

ghost use Rattle.std.specs.Prelude.{◌≡◌, ◌++◌, ◌∷◌, [], IfOk, List, map};
ghost use Rattle.asp_model.specs.Shapes.{line_shape};
ghost use Rattle.asp_model.specs.Contraction.{NumberLine};
ghost use Rattle.code_table.specs.declared.code.Node.{Node as NodeShape};
ghost use Rattle.step_rows.specs.declared.decision.Decision.TheVariants as decision;
ghost use Rattle.activity_step.specs.Advances.{IsPerformed};

use asp_model::Line;
use code_table::{Cell, Place};
use object_store::Store;
use std::alloc::{AllocError, Global};
use step_rows::Decision;

/// The redex becomes a new number.
#[inline(always)]
pub fn add_number(store: &mut Store, lines: &[Line], number: i64) -> Result<Place, AllocError>
    ensures performed { (k : List NodeShape) → IfOk result
        (IsPerformed k store.old.cells store.new.cells lines.now lines.now
        (decision.Number number)) }
{
    store.add(Cell::Number(number))
}

/// A new cell that equals another.
#[inline(never)]
fn add_copy(store: &mut Store, lines: &[Line], at: Place) -> Result<Place, AllocError>
    ensures performed { (k : List NodeShape) → IfOk result
        (IsPerformed k store.old.cells store.new.cells lines.now lines.now (decision.Copies at)) }
{
    if at >= store.len() {
        return Err(AllocError);
    }
    store.add_equal(at)
}

/// Another place in a field of an object.
fn put_place(
    store: &mut Store,
    lines: &[Line],
    object: Place,
    field: usize,
    to: Place,
) -> Result<Place, AllocError>
    ensures performed { (k : List NodeShape) → IfOk result
        (IsPerformed k store.old.cells store.new.cells lines.now lines.now
        (decision.Puts object field to)) }
{
    if store.set_near(object, field, to) {
        return Ok(object);
    }
    put_far(store, lines, object, field, to)
}

/// The same where the object may not be near.
#[inline(never)]
fn put_far(
    store: &mut Store,
    lines: &[Line],
    object: Place,
    field: usize,
    to: Place,
) -> Result<Place, AllocError>
    ensures performed { (k : List NodeShape) → IfOk result
        (IsPerformed k store.old.cells store.new.cells lines.now lines.now
        (decision.Puts object field to)) }
{
    if object >= store.len() {
        return Err(AllocError);
    }
    store.set_place(object, field, to)?;
    Ok(object)
}

/// A line of output.
#[inline(never)]
fn print_number(lines: &mut Vec<Line>, number: i64) -> Result<(), AllocError>
    ensures lines { IfOk result
        (λ _. map line_shape lines.new.items
        ≡ map line_shape lines.old.items ++ NumberLine number ∷ []) }
{
    lines.push(Line::Number(number))?;
    Ok(())
}

/// Does what a decision says, and answers the place that the redex becomes.
#[inline(always)]
pub fn perform(
    _alloc: Global,
    store: &mut Store,
    lines: &mut Vec<Line>,
    decision: Decision,
) -> Result<Place, AllocError>
    ensures performed { (k : List NodeShape) → IfOk result
        (IsPerformed k store.old.cells store.new.cells lines.old.items lines.new.items decision) }
{
    match decision {
        Decision::Stays(place) => Ok(place),
        Decision::Number(number) => add_number(store, lines, number),
        Decision::Copies(place) => add_copy(store, lines, place),
        Decision::Puts { object, field, to } => put_place(store, lines, object, field, to),
        Decision::Prints { place, number } => {
            print_number(lines, number)?;
            Ok(place)
        }
        Decision::Faults(_) => Err(AllocError),
        Decision::Needs(_) => Err(AllocError),
    }
}

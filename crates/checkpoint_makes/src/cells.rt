//! Cells of a store, or of a parcel.

ghost use Rattle.std.specs.Prelude.{◌≡◌, ◌∷◌, ◌++◌, [], IfOk, List, OnOk, map};
ghost use Rattle.code_compiler.specs.Compiled.{IsTable};
ghost use Rattle.code_table.specs.Cells.{IsBare, bare, held_future};
ghost use Rattle.code_table.specs.declared.code.Node.{Node as NodeShape};
ghost use Rattle.asp_model.specs.Shapes.{future_shape};
ghost use Rattle.asp_model.specs.Store.{
  Future as FutureCell,
  Group as GroupCell,
  Number as NumberCell,
  Reference as ReferenceCell,
};
ghost use Rattle.law_programs.specs.Proper.{IsProperCell};
ghost use Rattle.checkpoint_reading.specs.Cells.{cell_shape};
ghost use Rattle.checkpoint_makes.specs.Cells.{AreProper};
ghost use Rattle.checkpoint_makes.specs.Later.{AreMadeFrom, IsPushed};

use crate::objects::push_object;
use asp_model::{ActivityName, FutureName};
use checkpoint_reading::CellText;
use code_table::{Cell, Columns, Future, Node, Place};
use std::alloc::{AllocError, Global};
use std::sync::Arc;
use term_opening::short;

/// Makes cells. The classes of objects are compiled behind the other nodes.
pub fn make_cells(
    alloc: Global,
    nodes: &mut Vec<Node>,
    cells: Vec<CellText>,
) -> Result<Columns, AllocError>
    requires table { IsTable nodes.old.items }
    requires proper { AreProper cells.items }
    ensures made { let cs = map cell_shape cells.items in
        IfOk result (λ c. AreMadeFrom nodes.old.items nodes.new.items c.items cs) }
{
    let mut columns = Columns::with_room(alloc, cells.len(), 0)?;
    for cell in cells {
        push_cell(alloc, nodes, &mut columns, cell)?;
    }
    Ok(columns)
}

fn push_cell(
    alloc: Global,
    nodes: &mut Vec<Node>,
    columns: &mut Columns,
    cell: CellText,
) -> Result<(), AllocError>
    requires table { IsTable nodes.old.items }
    requires proper { IsProperCell (cell_shape cell) }
    ensures pushed { OnOk result (IsPushed nodes.old.items nodes.new.items
        columns.old.items columns.new.items (cell_shape cell)) }
{
    match cell {
        CellText::Number(number) => push_number(columns, number),
        CellText::Object { fields, methods } => push_object(alloc, nodes, columns, fields, methods),
        CellText::Reference(name) => push_reference(alloc, columns, name),
        CellText::Future(name) => push_future(alloc, columns, name),
        CellText::Group(members) => push_group(alloc, columns, &members),
    }
}

fn push_number(columns: &mut Columns, number: i64) -> Result<(), AllocError>
    ensures pushed { (ns : List NodeShape) → OnOk result
        (IsPushed ns ns columns.old.items columns.new.items (NumberCell number)) }
{
    push_bare(columns, Cell::Number(number))?;
    Ok(())
}

fn push_reference(
    alloc: Global,
    columns: &mut Columns,
    name: ActivityName,
) -> Result<(), AllocError>
    ensures pushed { (ns : List NodeShape) → OnOk result
        (IsPushed ns ns columns.old.items columns.new.items (ReferenceCell name)) }
{
    let name = Arc::new(alloc, name)?;
    push_bare(columns, Cell::Reference(name))?;
    Ok(())
}

fn push_future(alloc: Global, columns: &mut Columns, name: FutureName) -> Result<(), AllocError>
    ensures pushed { (ns : List NodeShape) → OnOk result
        (IsPushed ns ns columns.old.items columns.new.items (FutureCell (future_shape name))) }
{
    let future = make_future(alloc, name)?;
    push_bare(columns, Cell::Future(future))?;
    Ok(())
}

fn push_bare(columns: &mut Columns, cell: Cell) -> Result<(), AllocError>
    requires bare { IsBare cell }
    ensures items { OnOk result (columns.new.items ≡ columns.old.items ++ bare cell ∷ []) }
{
    columns.reserve(1)?;
    columns.push_reserved(cell);
    Ok(())
}

fn push_group(
    alloc: Global,
    columns: &mut Columns,
    members: &[asp_model::Place],
) -> Result<(), AllocError>
    ensures pushed { (ns : List NodeShape) → OnOk result
        (IsPushed ns ns columns.old.items columns.new.items (GroupCell members.now)) }
{
    let members = shorts(alloc, members)?;
    columns.push_group(&members)?;
    Ok(())
}

/// Makes a future.
pub fn make_future(alloc: Global, name: FutureName) -> Result<Arc<Future>, AllocError>
    ensures future { IfOk result (λ f. held_future f ≡ future_shape name) }
{
    let future = Future::new(alloc, name, 0);
    let shared = Arc::new(alloc, future)?;
    Ok(shared)
}

/// Places of a store in memory.
pub fn shorts(alloc: Global, places: &[asp_model::Place]) -> Result<Vec<Place>, AllocError>
    ensures same { IfOk result (λ v. v.items ≡ places.now) }
{
    let mut shorts = Vec::with_capacity(alloc, places.len())?;
    for place in places {
        shorts.push(short(*place)?)?;
    }
    Ok(shorts)
}

//! The need of a cell, by the value that is shown of the future that stands there.

ghost use Rattle.std.specs.Prelude.{◌<◌, List, length};
ghost use Rattle.asp_model.specs.Store.{Future as FutureCell, cell as cell_at};
ghost use Rattle.code_table.specs.Cells.{held_future};
ghost use Rattle.code_table.specs.Shapes.{cell_shape, store_of};
ghost use Rattle.code_table.specs.declared.code.Node.{Node as NodeShape};
ghost use Rattle.wait_need.specs.Peeks.{IsPeekNeed};

use code_table::{Future, Place, Sighting, View};
use object_store::Store;
use std::sync::Arc;

/// What a cell needs before its value is read, as far as it is seen without the futures that are
/// filled.
#[derive(Drop)]
pub enum PeekNeed<'a> {
    /// Nothing: it is no future.
    Ready,
    /// The value that was seen is to be unpacked in its place.
    Value(Seen<'a>),
    /// It is a future, of which no value was seen.
    Stop,
}

/// A future, and the sighting by which its value was seen: by it `peek` always answers this value.
#[derive(Drop)]
pub struct Seen<'a> {
    pub future: &'a Arc<Future>,
    pub sighting: Sighting,
}

/// What the cell at a place needs. It takes no memory.
pub fn peek_need(store: &Store, loc: Place) -> PeekNeed<'_>
    requires within { loc < length store.now.cells }
    // whatever code the store is of
    ensures need { (k : List NodeShape) →
        IsPeekNeed (cell_at (store_of k store.now.cells) loc) result }
{
    of_cell(store.cell(loc))
}

fn of_cell(cell: View<'_>) -> PeekNeed<'_>
    ensures need { (k : List NodeShape) → IsPeekNeed (cell_shape k cell.entry) result }
{
    match cell {
        View::Future(future) => of_future(future),
        _ => PeekNeed::Ready,
    }
}

fn of_future(future: &Arc<Future>) -> PeekNeed<'_>
    ensures need { IsPeekNeed (FutureCell (held_future future.now)) result }
{
    let mut sighting = future.sighting();
    match future.peek(&mut sighting) {
        Some(_) => PeekNeed::Value(Seen { future, sighting }),
        None => PeekNeed::Stop,
    }
}

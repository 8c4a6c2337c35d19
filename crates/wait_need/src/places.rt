//! The need of a cell, by the chase of the future that stands there.

ghost use Rattle.std.specs.Prelude.{◌≡◌, ◌<◌, List, length};
ghost use Rattle.asp_model.specs.Chase.{chase as chase_of};
ghost use Rattle.asp_model.specs.Store.{cell as cell_at};
ghost use Rattle.code_table.specs.declared.code.Node.{Node as NodeShape};
ghost use Rattle.code_table.specs.Shapes.{cell_shape, store_of};
ghost use Rattle.future_table.specs.Values.{chase_shape, values_of};
ghost use Rattle.wait_need.specs.Needs.{need_of, need_shape, need_told};

use crate::kinds::Need;
use code_table::{Place, View};
use future_table::{Chase, FutureTable};
use object_store::Store;

/// What the cell at a place needs. It takes no memory.
pub fn need<'a>(store: &'a Store, loc: Place, futures: &'a FutureTable) -> Need<'a>
    requires within { loc < length store.now.cells }
    // whatever code the store is of
    ensures need { (k : List NodeShape) → let chases = chase_of (values_of futures.now) in
        need_shape result ≡ need_of chases (cell_at (store_of k store.now.cells) loc) }
{
    of_cell(store.cell(loc), futures)
}

fn of_cell<'a>(cell: View<'a>, futures: &'a FutureTable) -> Need<'a>
    ensures need { (k : List NodeShape) → let chases = chase_of (values_of futures.now) in
        need_shape result ≡ need_of chases (cell_shape k cell.entry) }
{
    match cell {
        View::Future(future) => at_end(futures.chase(&future.name)),
        _ => Need::Ready,
    }
}

/// What a future needs whose walk ends so.
fn at_end(chase: Chase) -> Need
    ensures { need_shape result ≡ need_told (chase_shape chase.entry) }
{
    match chase {
        Chase::Value(name) => Need::Fill(name),
        Chase::Unfilled(name) | Chase::Cycle(name) => Need::Awaits(name),
    }
}

//! A cell in the place of another.

ghost use Rattle.std.specs.Prelude.{◌≡◌, ◌<◌, ◌≤◌, OnErr, OnOk, length};
ghost use Rattle.code_table.specs.Cells.{cell_at, coded, moved_coded, with_cell_at};
ghost use Rattle.code_table.specs.Moves.{move_of};
ghost use Rattle.object_store.specs.Exchanges.{Exchanges};
ghost use Rattle.object_store.specs.Finder.{Follows};
ghost use Rattle.object_store.specs.Index.{IsAlike};

use crate::finder::Finder;
use code_table::{Columns, Moves, Place, View};
use std::alloc::AllocError;

/// Puts a cell in the place of another of these columns, with its places moved, and notes it at the
/// place that this cell has in the store.
pub fn put_in(
    columns: &mut Columns,
    finder: &mut Finder,
    at: usize,
    loc: Place,
    cell: View,
    moves: &Moves,
) -> Result<(), AllocError>
    requires within { at < length columns.old.items }
    ensures items { let moved = moved_coded (move_of moves.now) (coded cell.entry) in
        OnOk result (columns.new.items ≡ with_cell_at columns.old.items at moved) }
    ensures noted { let was = cell_at columns.old.items at in
        OnOk result (Exchanges was (coded cell.entry) loc finder.old finder.new) }
    ensures free { columns.old.free ≤ columns.new.free }
    ensures err { OnErr result (columns.new.items ≡ columns.old.items) }
    ensures kept { OnErr result (Follows IsAlike finder.old finder.new) }
{
    columns.push_moved(cell, moves)?;
    if let Err(refused) = finder.hold(cell, loc) {
        columns.pop();
        return Err(refused);
    }
    finder.give_up(columns.view(at), cell, loc);
    columns.move_last_to(at);
    Ok(())
}

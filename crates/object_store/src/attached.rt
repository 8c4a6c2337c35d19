//! Cells that stores share.

ghost use Rattle.std.specs.Prelude.{◌≡◌, ◌<◌, ◌≤◌, ◌-◌, drop, length, map, take};
ghost use Rattle.std.specs.Arc.{arc_value};
ghost use Rattle.code_table.specs.Cells.{cell_at, coded, moved_coded};
ghost use Rattle.code_table.specs.Moves.{shift_of};

use code_table::{Columns, Shift, View};
use std::marker::Model;
use std::sync::Arc;

/// Some of the cells that stores share, each with its places where they go in one of these stores.
#[derive(Drop)]
pub struct Attached {
    columns: Arc<Columns>,
    from: usize,
    count: usize,
    shift: Shift,
}

impl Model for Attached {
    ghost use Rattle.object_store.specs.AttachedView.{AttachedView};

    ghost Value = { AttachedView };

    ghost use Rattle.object_store.specs.Attached.{IsAttached, attached_view};

    ghost view = { attached_view };

    ghost invariant = { IsAttached };
}

impl Attached {
    /// The cells from one on.
    pub fn of(columns: Arc<Columns>, from: usize, shift: Shift) -> Attached
        requires within { from ≤ length (arc_value columns).items }
        ensures items { let cells = drop from (arc_value columns).items in
            result.items ≡ map (moved_coded (shift_of shift)) cells }
    {
        let count = columns.len() - from;
        Attached {
            columns,
            from,
            count,
            shift,
        }
    }

    pub fn len(&self) -> usize
        ensures { result ≡ length self.now.items }
    {
        self.count
    }

    /// The cell with a number.
    pub fn view(&self, at: usize) -> View<'_>
        requires within { at < length self.now.items }
        ensures view { coded result ≡ cell_at self.now.items at }
    {
        // Read for its bound: the sum is a place.
        let _count = self.columns.len();
        self.columns.view_by(self.from + at, &self.shift)
    }

    /// Leaves the last cell out.
    pub fn pop(&mut self)
        requires some { 0 < length self.old.items }
        ensures items { self.new.items ≡ take (length self.old.items - 1) self.old.items }
    {
        self.count -= 1;
    }
}

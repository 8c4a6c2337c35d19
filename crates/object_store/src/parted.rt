//! The cells of a store that shares some with others.

ghost use Rattle.std.specs.Prelude.{
  ◌≡◌,
  ◌<◌,
  ◌≤◌,
  ◌-◌,
  ◌+◌,
  ◌^◌,
  ◌++◌,
  ◌∷◌,
  [],
  IfOk,
  IsOk,
  OnErr,
  OnOk,
  drop,
  length,
  map,
  take,
};
ghost use Rattle.std.specs.Arc.{arc_value};
ghost use Rattle.code_table.specs.Cells.{
  Group as group_of,
  IsBare,
  Object as object_with,
  bare,
  cell_at,
  coded,
  moved_coded,
  with_cell_at,
  with_place_at,
};
ghost use Rattle.code_table.specs.Moves.{move_of, shift_of};
ghost use Rattle.object_store.specs.Exchanges.{Exchanges};
ghost use Rattle.object_store.specs.Finder.{Follows};
ghost use Rattle.object_store.specs.Index.{IsAlike};

use crate::attached::Attached;
use crate::finder::Finder;
use crate::parts::{Part, pop_of, put_moved_in, set_in, view_in};
use crate::putting::put_in;
use code_table::{Cell, Columns, Moves, Place, Shift, View};
use std::alloc::{AllocError, Global};
use std::marker::Model;
use std::mem;
use std::sync::Arc;

// No more cells stand before the newest ones.
const MOST: usize = usize::MAX / 2 + 1;

/// Cells in the order in which they were added. The newest ones are columns of their own. Before them
/// stand parts.
#[derive(Drop)]
pub struct Parted {
    alloc: Global,
    /// How many cells stand before the newest ones.
    first: Place,
    parts: Vec<Part>,
    columns: Columns,
    /// How many cells are shared.
    shared: usize,
}

impl Model for Parted {
    ghost use Rattle.code_table.specs.ColumnsView.{ColumnsView};

    ghost Value = { ColumnsView };

    ghost use Rattle.std.specs.Coded.{codes};

    ghost coded = { Prim.hlevel codes };

    ghost use Rattle.object_store.specs.Parts.{IsParted, parted_view};

    ghost view = { parted_view };

    ghost invariant = { IsParted };
}

impl Parted {
    /// These cells, of which none is shared.
    pub fn of(alloc: Global, columns: Columns) -> Parted
        ensures items { result.items ≡ columns.items }
        ensures free { result.free ≡ columns.free }
    {
        Parted {
            alloc,
            first: 0,
            parts: Vec::new(alloc),
            columns,
            shared: 0,
        }
    }

    pub fn len(&self) -> Place
        ensures { result ≡ length self.now.items }
    {
        // Read for its bound: the sum is a place.
        let _room = self.columns.room();
        self.first + self.columns.len()
    }

    /// The cell at a place.
    pub fn view(&self, at: Place) -> View<'_>
        requires within { at < length self.now.items }
        ensures view { coded result ≡ cell_at self.now.items at }
    {
        if at < self.first {
            return view_in(&self.parts, at);
        }
        self.columns.view(at - self.first)
    }

    /// Makes room for so many more cells, but not for their places.
    pub fn reserve(&mut self, more: usize) -> Result<(), AllocError>
        ensures items { self.new.items ≡ self.old.items }
        ensures free { OnOk result (more ≤ self.new.free) }
        ensures kept { self.old.free ≤ self.new.free }
        ensures succeeds { more ≤ self.old.free → IsOk result }
    {
        self.columns.reserve(more)
    }

    /// How many cells are its own.
    pub fn own(&self) -> usize {
        self.len().saturating_sub(self.shared)
    }

    /// Whether it has more cells of its own than it shares.
    pub fn is_mostly_own(&self) -> bool {
        self.own() > self.shared
    }

    /// All cells in columns, with as much room as there is now.
    pub fn all(&self) -> Result<Columns, AllocError>
        ensures items { IfOk result (λ c. c.items ≡ self.now.items) }
        ensures free { IfOk result (λ c. self.now.free ≤ c.free) }
    {
        let count = self.len();
        let mut columns = Columns::with_room(self.alloc, count + self.columns.room(), 0)?;
        let mut at = 0;
        while at < count {
            columns.push_moved(self.view(at), &Moves::Stay)?;
            at += 1;
        }
        Ok(columns)
    }

    /// Appends a cell that has no words, where there is room.
    pub fn push_reserved(&mut self, cell: Cell)
        requires bare { IsBare cell }
        requires room { 0 < self.old.free }
        ensures items { self.new.items ≡ self.old.items ++ bare cell ∷ [] }
        ensures free { self.new.free ≡ self.old.free - 1 }
    {
        self.columns.push_reserved(cell);
    }

    /// Appends an object of a class, with these places.
    pub fn push_object(&mut self, class: usize, places: &[Place]) -> Result<(), AllocError>
        ensures items { let object = object_with class places.now in
            OnOk result (self.new.items ≡ self.old.items ++ object ∷ []) }
        ensures err { OnErr result (self.new.items ≡ self.old.items) }
        ensures free { self.old.free - 1 ≤ self.new.free }
        ensures kept { OnErr result (self.old.free ≤ self.new.free) }
    {
        self.reserve(1)?;
        self.columns.push_object(class, places)?;
        Ok(())
    }

    /// Appends a group of these members.
    pub fn push_group(&mut self, members: &[Place]) -> Result<(), AllocError>
        ensures items { OnOk result (self.new.items ≡ self.old.items ++ group_of members.now ∷ []) }
        ensures err { OnErr result (self.new.items ≡ self.old.items) }
        ensures free { self.old.free - 1 ≤ self.new.free }
        ensures kept { OnErr result (self.old.free ≤ self.new.free) }
    {
        self.reserve(1)?;
        self.columns.push_group(members)?;
        Ok(())
    }

    /// Appends a cell, with each of its places moved.
    pub fn push_moved(&mut self, view: View, moves: &Moves) -> Result<(), AllocError>
        ensures items { let cell = moved_coded (move_of moves.now) (coded view.entry) in
            OnOk result (self.new.items ≡ self.old.items ++ cell ∷ []) }
        ensures err { OnErr result (self.new.items ≡ self.old.items) }
        ensures free { self.old.free - 1 ≤ self.new.free }
        ensures kept { OnErr result (self.old.free ≤ self.new.free) }
    {
        self.reserve(1)?;
        self.columns.push_moved(view, moves)?;
        Ok(())
    }

    /// Appends a cell that equals the one at a place.
    pub fn push_equal(&mut self, at: Place) -> Result<(), AllocError>
        requires within { at < length self.old.items }
        ensures items { OnOk result
            (self.new.items ≡ self.old.items ++ cell_at self.old.items at ∷ []) }
        ensures err { OnErr result (self.new.items ≡ self.old.items) }
        ensures free { self.old.free - 1 ≤ self.new.free }
        ensures kept { OnErr result (self.old.free ≤ self.new.free) }
    {
        self.reserve(1)?;
        if at >= self.first {
            self.columns.push_equal(at - self.first)?;
            return Ok(());
        }
        self.columns
            .push_moved(view_in(&self.parts, at), &Moves::Stay)?;
        Ok(())
    }

    /// Puts a cell in the place of another, with each of its places moved, and notes it.
    pub fn put_moved(
        &mut self,
        finder: &mut Finder,
        at: Place,
        cell: View,
        moves: &Moves,
    ) -> Result<(), AllocError>
        requires within { at < length self.old.items }
        ensures items { let moved = moved_coded (move_of moves.now) (coded cell.entry) in
            OnOk result (self.new.items ≡ with_cell_at self.old.items at moved) }
        ensures noted { let was = cell_at self.old.items at in
            OnOk result (Exchanges was (coded cell.entry) at finder.old finder.new) }
        ensures free { self.old.free ≤ self.new.free }
        ensures err { OnErr result (self.new.items ≡ self.old.items) }
        ensures kept { OnErr result (Follows IsAlike finder.old finder.new) }
    {
        if at >= self.first {
            let own = at - self.first;
            put_in(&mut self.columns, finder, own, at, cell, moves)?;
            return Ok(());
        }
        if put_moved_in(&mut self.parts, finder, at, cell, moves)? {
            return Ok(());
        }
        self.put_in_all(finder, at, cell, moves)
    }

    // The same where the cell is shared: all of them are taken in.
    #[inline(never)]
    fn put_in_all(
        &mut self,
        finder: &mut Finder,
        at: Place,
        cell: View,
        moves: &Moves,
    ) -> Result<(), AllocError>
        requires within { at < length self.old.items }
        ensures items { let moved = moved_coded (move_of moves.now) (coded cell.entry) in
            OnOk result (self.new.items ≡ with_cell_at self.old.items at moved) }
        ensures noted { let was = cell_at self.old.items at in
            OnOk result (Exchanges was (coded cell.entry) at finder.old finder.new) }
        ensures free { self.old.free ≤ self.new.free }
        ensures err { OnErr result (self.new.items ≡ self.old.items) }
        ensures kept { OnErr result (Follows IsAlike finder.old finder.new) }
    {
        let mut columns = self.all()?;
        put_in(&mut columns, finder, at, at, cell, moves)?;
        *self = Parted::of(self.alloc, columns);
        Ok(())
    }

    /// Sets one of the places of an object, where it has that many.
    pub fn set_place(&mut self, at: Place, index: usize, to: Place) -> Result<(), AllocError>
        requires within { at < length self.old.items }
        ensures items { let s = self.old.items in
            let set = with_cell_at s at (with_place_at index to (cell_at s at)) in
            OnOk result (self.new.items ≡ set) }
        ensures free { self.old.free ≤ self.new.free }
        ensures err { OnErr result (self.new.items ≡ self.old.items) }
    {
        if at >= self.first {
            self.columns.set_place(at - self.first, index, to);
            return Ok(());
        }
        if set_in(&mut self.parts, at, index, to) {
            return Ok(());
        }
        self.set_in_all(at, index, to)
    }

    // The same where the cell is shared: all of them are taken in.
    #[inline(never)]
    fn set_in_all(&mut self, at: Place, index: usize, to: Place) -> Result<(), AllocError>
        requires within { at < length self.old.items }
        ensures items { let s = self.old.items in
            let set = with_cell_at s at (with_place_at index to (cell_at s at)) in
            OnOk result (self.new.items ≡ set) }
        ensures free { self.old.free ≤ self.new.free }
        ensures err { OnErr result (self.new.items ≡ self.old.items) }
    {
        let mut columns = self.all()?;
        columns.set_place(at, index, to);
        *self = Parted::of(self.alloc, columns);
        Ok(())
    }

    /// Takes the last cell out. Its words stay behind.
    pub fn pop(&mut self)
        requires some { 0 < length self.old.items }
        ensures items { self.new.items ≡ take (length self.old.items - 1) self.old.items }
        ensures free { self.old.free ≤ self.new.free }
    {
        if self.columns.len() > 0 {
            self.columns.pop();
            return;
        }
        pop_of(&mut self.parts);
        self.first -= 1;
    }

    /// Appends the shared cells from one on, each with its places where they go.
    pub fn attach(
        &mut self,
        shared: &Arc<Columns>,
        from: usize,
        shift: Shift,
    ) -> Result<(), AllocError>
        requires within { from ≤ length (arc_value shared.now).items }
        ensures items { let cells = drop from (arc_value shared.now).items in
            OnOk result (self.new.items ≡ self.old.items ++ map (moved_coded (shift_of shift)) cells) }
        ensures err { OnErr result (self.new.items ≡ self.old.items) }
        ensures free { OnErr result (self.new.free ≡ self.old.free) }
    {
        let count = shared.len() - from;
        if count == 0 {
            return Ok(());
        }
        let first = behind(self.len(), count)?;
        let columns = Arc::try_clone(shared)?;
        let attached = Attached::of(columns, from, shift);
        self.parts.reserve(1)?;
        let own = mem::replace(&mut self.columns, Columns::new(self.alloc));
        self.parts.push_reserved(Part {
            start: self.first,
            own,
            attached,
        });
        self.first = first;
        self.shared = self.shared.saturating_add(count);
        Ok(())
    }
}

// How many cells so many and so many are, where that is not too many.
fn behind(first: Place, count: usize) -> Result<Place, AllocError>
    ensures sum { IfOk result (λ n. n ≡ first + count) }
    ensures bound { IfOk result (λ n. n ≤ 2 ^ 63) }
{
    match first.checked_add(count) {
        Some(sum) if sum <= MOST => Ok(sum),
        _ => Err(AllocError),
    }
}

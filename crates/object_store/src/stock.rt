//! The cells of a store: its own, and those that it shares.

ghost use Rattle.std.specs.Prelude.{
  ◌≡◌,
  ◌<◌,
  ◌≤◌,
  ◌-◌,
  ◌++◌,
  ◌∷◌,
  [],
  IfNone,
  IfOk,
  IfSome,
  IsFalse,
  IsOk,
  IsTrue,
  OnErr,
  OnOk,
  drop,
  length,
  map,
  take,
};
ghost use Rattle.std.specs.Arc.{arc_value};
ghost use Rattle.code_table.specs.Cells.{
  Group as group_of,
  IsBare,
  Object as object_with,
  bare,
  cell_at,
  coded,
  moved_coded,
  with_cell_at,
  with_place_at,
};
ghost use Rattle.code_table.specs.Moves.{move_of, shift_of};
ghost use Rattle.object_store.specs.Exchanges.{Exchanges};
ghost use Rattle.object_store.specs.Finder.{Follows};
ghost use Rattle.object_store.specs.Index.{IsAlike};

use crate::finder::Finder;
use crate::parted::Parted;
use crate::putting::put_in;
use code_table::{Cell, Columns, Moves, Place, Shift, View};
use std::alloc::{AllocError, Global};
use std::marker::Model;
use std::mem;
use std::sync::Arc;

/// The cells of a store, in the order in which they were added. Where none is shared all are near.
#[derive(Drop)]
pub struct Stock {
    alloc: Global,
    /// All cells, or none and no room, where there are others.
    near: Columns,
    far: Option<Box<Parted>>,
}

impl Model for Stock {
    ghost use Rattle.object_store.specs.StockView.{StockView};

    ghost Value = { StockView };

    ghost use Rattle.std.specs.Coded.{codes};

    ghost coded = { Prim.hlevel codes };

    ghost use Rattle.object_store.specs.Stock.{IsStock, stock_view};

    ghost view = { stock_view };

    ghost invariant = { IsStock };
}

impl Stock {
    /// These cells, of which none is shared.
    pub fn of(alloc: Global, columns: Columns) -> Stock
        ensures items { result.items ≡ columns.items }
        ensures free { result.free ≡ columns.free }
    {
        Stock {
            alloc,
            near: columns,
            far: None,
        }
    }

    pub fn len(&self) -> Place
        ensures { result ≡ length self.now.items }
    {
        match &self.far {
            None => self.near.len(),
            Some(far) => far.len(),
        }
    }

    /// For how many more cells there is room at hand.
    #[inline(always)]
    pub fn at_hand(&self) -> usize
        ensures { result ≡ self.now.at_hand }
    {
        self.near.room()
    }

    /// How many cells there are, where there is room at hand.
    #[inline(always)]
    pub fn near_len(&self) -> Place
        requires room { 0 < self.now.at_hand }
        ensures { result ≡ length self.now.items }
    {
        self.near.len()
    }

    /// Appends a cell that has no words, where there is room at hand.
    #[inline(always)]
    pub fn push_near(&mut self, cell: Cell)
        requires bare { IsBare cell }
        requires room { 0 < self.old.at_hand }
        ensures items { self.new.items ≡ self.old.items ++ bare cell ∷ [] }
        ensures free { self.new.free ≡ self.old.free - 1 }
    {
        self.near.push_reserved(cell);
    }

    /// Appends an object of a class, with these places, where there is room at hand.
    #[inline(always)]
    pub fn push_object_near(&mut self, class: usize, places: &[Place]) -> Result<(), AllocError>
        requires room { 0 < self.old.at_hand }
        ensures items { let object = object_with class places.now in
            OnOk result (self.new.items ≡ self.old.items ++ object ∷ []) }
        ensures err { OnErr result (self.new.items ≡ self.old.items) }
        ensures free { self.old.free - 1 ≤ self.new.free }
        ensures kept { OnErr result (self.old.free ≤ self.new.free) }
    {
        self.near.push_object(class, places)
    }

    /// The cell at a place.
    #[inline(always)]
    pub fn view(&self, at: Place) -> View<'_>
        requires within { at < length self.now.items }
        ensures view { coded result ≡ cell_at self.now.items at }
    {
        if at < self.near.len() {
            return self.near.view(at);
        }
        self.view_far(at)
    }

    #[inline(never)]
    fn view_far(&self, at: Place) -> View<'_>
        requires within { at < length self.now.items }
        ensures view { coded result ≡ cell_at self.now.items at }
    {
        match &self.far {
            None => self.near.view(at),
            Some(far) => far.view(at),
        }
    }

    /// The cell at a place, where there is one. A near one is found by one comparison.
    #[inline(always)]
    pub fn get(&self, at: Place) -> Option<View<'_>>
        ensures cell { IfSome result (λ c. coded c ≡ cell_at self.now.items at) }
        ensures within { IfSome result (λ c. at < length self.now.items) }
        ensures none { IfNone result (length self.now.items ≤ at) }
    {
        if at < self.near.len() {
            return Some(self.near.view(at));
        }
        self.get_far(at)
    }

    /// The cell at a place, where it is near.
    #[inline(always)]
    pub fn near_view(&self, at: Place) -> Option<View<'_>>
        ensures cell { IfSome result (λ c. coded c ≡ cell_at self.now.items at) }
        ensures within { IfSome result (λ c. at < length self.now.items) }
    {
        if at < self.near.len() {
            return Some(self.near.view(at));
        }
        None
    }

    #[inline(never)]
    fn get_far(&self, at: Place) -> Option<View<'_>>
        ensures cell { IfSome result (λ c. coded c ≡ cell_at self.now.items at) }
        ensures within { IfSome result (λ c. at < length self.now.items) }
        ensures none { IfNone result (length self.now.items ≤ at) }
    {
        if at < self.len() {
            return Some(self.view_far(at));
        }
        None
    }

    /// Makes room for so many more cells, but not for their places.
    #[inline(always)]
    pub fn reserve(&mut self, more: usize) -> Result<(), AllocError>
        ensures items { self.new.items ≡ self.old.items }
        ensures free { OnOk result (more ≤ self.new.free) }
        ensures kept { self.old.free ≤ self.new.free }
        ensures succeeds { more ≤ self.old.free → IsOk result }
    {
        if more <= self.near.room() {
            return Ok(());
        }
        self.grow(more)
    }

    // The same where there may be no room at hand.
    #[inline(never)]
    fn grow(&mut self, more: usize) -> Result<(), AllocError>
        ensures items { self.new.items ≡ self.old.items }
        ensures free { OnOk result (more ≤ self.new.free) }
        ensures kept { self.old.free ≤ self.new.free }
        ensures succeeds { more ≤ self.old.free → IsOk result }
    {
        self.settle();
        match &mut self.far {
            None => self.near.reserve(more),
            Some(far) => far.reserve(more),
        }
    }

    // Takes the shared cells in where most are its own. Where memory is refused they stay for later.
    fn settle(&mut self)
        ensures items { self.new.items ≡ self.old.items }
        ensures kept { self.old.free ≤ self.new.free }
    {
        if let Some(columns) = self.settled() {
            *self = Stock::of(self.alloc, columns);
        }
    }

    fn settled(&self) -> Option<Columns>
        ensures items { IfSome result (λ c. c.items ≡ self.now.items) }
        ensures kept { IfSome result (λ c. self.now.free ≤ c.free) }
    {
        match &self.far {
            None => None,
            Some(far) => all_of(far),
        }
    }

    /// Whether so many cells are better shared than copied: the store has no more of its own.
    pub fn shares(&self, count: usize) -> bool {
        match &self.far {
            None => count >= self.near.len(),
            Some(far) => count >= far.own(),
        }
    }

    /// Appends a cell that has no words, where there is room.
    pub fn push_reserved(&mut self, cell: Cell)
        requires bare { IsBare cell }
        requires room { 0 < self.old.free }
        ensures items { self.new.items ≡ self.old.items ++ bare cell ∷ [] }
        ensures free { self.new.free ≡ self.old.free - 1 }
    {
        match &mut self.far {
            None => self.near.push_reserved(cell),
            Some(far) => far.push_reserved(cell),
        }
    }

    /// Appends an object of a class, with these places.
    pub fn push_object(&mut self, class: usize, places: &[Place]) -> Result<(), AllocError>
        ensures items { let object = object_with class places.now in
            OnOk result (self.new.items ≡ self.old.items ++ object ∷ []) }
        ensures err { OnErr result (self.new.items ≡ self.old.items) }
        ensures free { self.old.free - 1 ≤ self.new.free }
        ensures kept { OnErr result (self.old.free ≤ self.new.free) }
    {
        match &mut self.far {
            None => self.near.push_object(class, places),
            Some(far) => far.push_object(class, places),
        }
    }

    /// Appends a group of these members.
    pub fn push_group(&mut self, members: &[Place]) -> Result<(), AllocError>
        ensures items { OnOk result (self.new.items ≡ self.old.items ++ group_of members.now ∷ []) }
        ensures err { OnErr result (self.new.items ≡ self.old.items) }
        ensures free { self.old.free - 1 ≤ self.new.free }
        ensures kept { OnErr result (self.old.free ≤ self.new.free) }
    {
        match &mut self.far {
            None => self.near.push_group(members),
            Some(far) => far.push_group(members),
        }
    }

    /// Appends a cell, with each of its places moved.
    pub fn push_moved(&mut self, view: View, moves: &Moves) -> Result<(), AllocError>
        ensures items { let cell = moved_coded (move_of moves.now) (coded view.entry) in
            OnOk result (self.new.items ≡ self.old.items ++ cell ∷ []) }
        ensures err { OnErr result (self.new.items ≡ self.old.items) }
        ensures free { self.old.free - 1 ≤ self.new.free }
        ensures kept { OnErr result (self.old.free ≤ self.new.free) }
    {
        match &mut self.far {
            None => self.near.push_moved(view, moves),
            Some(far) => far.push_moved(view, moves),
        }
    }

    /// Appends a cell that equals the one at a place.
    pub fn push_equal(&mut self, at: Place) -> Result<(), AllocError>
        requires within { at < length self.old.items }
        ensures items { OnOk result
            (self.new.items ≡ self.old.items ++ cell_at self.old.items at ∷ []) }
        ensures err { OnErr result (self.new.items ≡ self.old.items) }
        ensures free { self.old.free - 1 ≤ self.new.free }
        ensures kept { OnErr result (self.old.free ≤ self.new.free) }
    {
        match &mut self.far {
            None => self.near.push_equal(at),
            Some(far) => far.push_equal(at),
        }
    }

    /// Puts a cell in the place of another, with each of its places moved, and notes it.
    pub fn put_moved(
        &mut self,
        finder: &mut Finder,
        at: Place,
        cell: View,
        moves: &Moves,
    ) -> Result<(), AllocError>
        requires within { at < length self.old.items }
        ensures items { let moved = moved_coded (move_of moves.now) (coded cell.entry) in
            OnOk result (self.new.items ≡ with_cell_at self.old.items at moved) }
        ensures noted { let was = cell_at self.old.items at in
            OnOk result (Exchanges was (coded cell.entry) at finder.old finder.new) }
        ensures free { self.old.free ≤ self.new.free }
        ensures err { OnErr result (self.new.items ≡ self.old.items) }
        ensures kept { OnErr result (Follows IsAlike finder.old finder.new) }
    {
        match &mut self.far {
            None => put_in(&mut self.near, finder, at, at, cell, moves),
            Some(far) => far.put_moved(finder, at, cell, moves),
        }
    }

    /// Sets one of the places of an object, where it has that many.
    #[inline(always)]
    pub fn set_place(&mut self, at: Place, index: usize, to: Place) -> Result<(), AllocError>
        requires within { at < length self.old.items }
        ensures items { let s = self.old.items in
            let set = with_cell_at s at (with_place_at index to (cell_at s at)) in
            OnOk result (self.new.items ≡ set) }
        ensures free { self.old.free ≤ self.new.free }
        ensures err { OnErr result (self.new.items ≡ self.old.items) }
    {
        if at < self.near.len() {
            self.near.set_place(at, index, to);
            return Ok(());
        }
        self.set_far(at, index, to)
    }

    #[inline(never)]
    fn set_far(&mut self, at: Place, index: usize, to: Place) -> Result<(), AllocError>
        requires within { at < length self.old.items }
        ensures items { let s = self.old.items in
            let set = with_cell_at s at (with_place_at index to (cell_at s at)) in
            OnOk result (self.new.items ≡ set) }
        ensures free { self.old.free ≤ self.new.free }
        ensures err { OnErr result (self.new.items ≡ self.old.items) }
    {
        match &mut self.far {
            None => {
                self.near.set_place(at, index, to);
                Ok(())
            }
            Some(far) => far.set_place(at, index, to),
        }
    }

    /// Sets one of the places of a near object, where it has that many.
    #[inline(always)]
    pub fn set_near(&mut self, at: Place, index: usize, to: Place) -> bool
        ensures items { let s = self.old.items in
            let set = with_cell_at s at (with_place_at index to (cell_at s at)) in
            IsTrue result → self.new.items ≡ set }
        ensures free { self.new.free ≡ self.old.free }
        ensures far { IsFalse result → self.new ≡ self.old }
    {
        if at < self.near.len() {
            self.near.set_place(at, index, to);
            return true;
        }
        false
    }

    /// Takes the last cell out. Its words stay behind.
    pub fn pop(&mut self)
        requires some { 0 < length self.old.items }
        ensures items { self.new.items ≡ take (length self.old.items - 1) self.old.items }
        ensures free { self.old.free ≤ self.new.free }
    {
        match &mut self.far {
            None => self.near.pop(),
            Some(far) => far.pop(),
        }
    }

    /// Appends the shared cells from one on, each with its places where they go.
    pub fn attach(
        &mut self,
        shared: &Arc<Columns>,
        from: usize,
        shift: Shift,
    ) -> Result<(), AllocError>
        requires within { from ≤ length (arc_value shared.now).items }
        ensures items { let cells = drop from (arc_value shared.now).items in
            OnOk result (self.new.items ≡ self.old.items ++ map (moved_coded (shift_of shift)) cells) }
        ensures err { OnErr result (self.new.items ≡ self.old.items) }
        ensures free { OnErr result (self.new.free ≡ self.old.free) }
    {
        let mut far = self.take_out()?;
        let outcome = far.attach(shared, from, shift);
        self.far = Some(far);
        outcome
    }

    // Takes all cells out, in parts.
    fn take_out(&mut self) -> Result<Box<Parted>, AllocError>
        ensures items { IfOk result (λ far. far.value.items ≡ self.old.items) }
        ensures free { IfOk result (λ far. far.value.free ≡ self.old.free) }
        ensures none { OnOk result (self.new.items ≡ []) }
        ensures nothing { OnOk result (self.new.at_hand ≡ 0) }
        ensures err { OnErr result (self.new ≡ self.old) }
    {
        if let Some(far) = self.far.take() {
            return Ok(far);
        }
        let mut far = Box::new(self.alloc, no_parts(self.alloc)?)?;
        let none = Columns::with_room(self.alloc, 0, 0)?;
        *far = Parted::of(self.alloc, mem::replace(&mut self.near, none));
        Ok(far)
    }
}

fn no_parts(alloc: Global) -> Result<Parted, AllocError> {
    Ok(Parted::of(alloc, Columns::with_room(alloc, 0, 0)?))
}

// All cells in columns, where most are its own and memory is not refused.
fn all_of(far: &Parted) -> Option<Columns>
    ensures items { IfSome result (λ c. c.items ≡ far.now.items) }
    ensures kept { IfSome result (λ c. far.now.free ≤ c.free) }
{
    if !far.is_mostly_own() {
        return None;
    }
    far.all().ok()
}

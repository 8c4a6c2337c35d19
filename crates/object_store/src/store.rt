//! Cells by their places. A place stays what it is, since no cell is ever taken out.

ghost use Rattle.std.specs.Prelude.{
  ◌≡◌,
  ◌<◌,
  ◌≤◌,
  ◌+◌,
  ◌-◌,
  ◌∷◌,
  ◌++◌,
  [],
  IfNone,
  IfOk,
  IfSome,
  IsFalse,
  IsOk,
  IsTrue,
  OnErr,
  OnOk,
  drop,
  false,
  length,
  map,
  take,
};
ghost use Rattle.std.specs.Arc.{arc_value};
ghost use Rattle.asp_model.specs.Shapes.{future_shape};
ghost use Rattle.code_table.specs.Cells.{
  ArePlain,
  Group,
  IsBare,
  Object,
  bare,
  cell_at,
  coded,
  moved_coded,
  with_cell_at,
  with_place_at,
};
ghost use Rattle.code_table.specs.Moves.{move_of, shift_of};
ghost use Rattle.object_store.specs.Holders.{holders, is_some_future};

use crate::finder::Finder;
use crate::stock::Stock;
use asp_model::FutureName;
use code_table::{Cell, Columns, Moves, Place, Shift, View};
use std::alloc::{AllocError, Global};
use std::marker::Model;
use std::sync::Arc;

/// The cells of one activity, in the order in which they were added. No call ties `AllocError` to
/// what it asks for.
pub struct Store {
    alloc: Global,
    cells: Stock,
    spare: usize,
    finder: Finder,
}

// Written out, so that crates above drop it by one call.
impl Drop for Store {
    fn drop(self) {
        let Store {
            alloc: _,
            cells: _,
            spare: _,
            finder: _,
        } = self;
    }
}

impl Model for Store {
    ghost use Rattle.object_store.specs.View.{StoreView};

    ghost Value = { StoreView };

    ghost use Rattle.std.specs.Coded.{codes};

    ghost coded = { Prim.hlevel codes };

    ghost use Rattle.object_store.specs.Stored.{IsStored, view_of};

    ghost view = { view_of };

    ghost invariant = { IsStored };
}

impl Store {
    /// A store with no cells.
    pub fn new(alloc: Global) -> Store
        ensures cells { result.cells ≡ [] }
        ensures spare { result.spare ≡ 0 }
    {
        Store {
            alloc,
            cells: Stock::of(alloc, Columns::new(alloc)),
            spare: 0,
            finder: Finder::Look,
        }
    }

    /// A store of these cells, with room for a few more.
    pub fn of(alloc: Global, columns: Columns) -> Result<Store, AllocError>
        ensures cells { IfOk result (λ s. s.cells ≡ columns.items) }
    {
        let mut store = Store {
            alloc,
            cells: Stock::of(alloc, columns),
            spare: 0,
            finder: Finder::Look,
        };
        store.reserve(4)?;
        Ok(store)
    }

    pub fn len(&self) -> Place
        ensures { result ≡ length self.now.cells }
    {
        self.cells.len()
    }

    /// Appends a cell that has no words, and answers its place.
    #[inline(always)]
    pub fn add(&mut self, cell: Cell) -> Result<Place, AllocError>
        requires bare { IsBare cell }
        ensures place { IfOk result (λ place. place ≡ length self.old.cells) }
        ensures cells { OnOk result (self.new.cells ≡ self.old.cells ++ bare cell ∷ []) }
        ensures spare { OnOk result (self.new.spare ≡ self.old.spare - 1) }
        ensures room { 0 < self.old.spare → is_some_future (bare cell) ≡ false → IsOk result }
        ensures err { OnErr result (self.new ≡ self.old) }
    {
        if self.cells.at_hand() > 0 {
            let place = self.cells.near_len();
            self.finder.fit_one(self.alloc, &self.cells, self.spare)?;
            self.finder.hold(cell.lone(), place)?;
            self.cells.push_near(cell);
            self.spare = self.spare.saturating_sub(1);
            return Ok(place);
        }
        self.add_far(cell)
    }

    /// Makes room for so many more cells.
    pub fn reserve(&mut self, more: u32) -> Result<(), AllocError>
        ensures cells { self.new.cells ≡ self.old.cells }
        ensures spare { OnOk result (more ≤ self.new.spare) }
        ensures err { OnErr result (self.new ≡ self.old) }
    {
        let spare = self.spare.max(more as usize);
        self.finder.fit(self.alloc, &self.cells, spare)?;
        self.cells.reserve(spare)?;
        self.spare = spare;
        Ok(())
    }

    /// Appends an object of a class, with these places, and answers its place.
    #[inline(always)]
    pub fn add_object(&mut self, class: usize, places: &[Place]) -> Result<Place, AllocError>
        ensures place { IfOk result (λ place. place ≡ length self.old.cells) }
        ensures cells { let object = Object class places.now in
            OnOk result (self.new.cells ≡ self.old.cells ++ object ∷ []) }
        ensures spare { OnOk result (self.new.spare ≡ self.old.spare - 1) }
        ensures err { OnErr result (self.new ≡ self.old) }
    {
        if self.cells.at_hand() > 0 {
            let place = self.cells.near_len();
            self.finder.fit_one(self.alloc, &self.cells, self.spare)?;
            self.cells.push_object_near(class, places)?;
            self.spare = self.spare.saturating_sub(1);
            return Ok(place);
        }
        self.add_object_far(class, places)
    }

    // The same where there may be no room at hand.
    #[inline(never)]
    fn add_object_far(&mut self, class: usize, places: &[Place]) -> Result<Place, AllocError>
        ensures place { IfOk result (λ place. place ≡ length self.old.cells) }
        ensures cells { let object = Object class places.now in
            OnOk result (self.new.cells ≡ self.old.cells ++ object ∷ []) }
        ensures spare { OnOk result (self.new.spare ≡ self.old.spare - 1) }
        ensures err { OnErr result (self.new ≡ self.old) }
    {
        let place = self.len();
        self.finder.fit_one(self.alloc, &self.cells, self.spare)?;
        self.cells.push_object(class, places)?;
        self.spare = self.spare.saturating_sub(1);
        Ok(place)
    }

    /// Appends a group of these members, and answers its place.
    pub fn add_group(&mut self, members: &[Place]) -> Result<Place, AllocError>
        ensures place { IfOk result (λ place. place ≡ length self.old.cells) }
        ensures cells { OnOk result (self.new.cells ≡ self.old.cells ++ Group members.now ∷ []) }
        ensures spare { OnOk result (self.new.spare ≡ self.old.spare - 1) }
        ensures err { OnErr result (self.new ≡ self.old) }
    {
        let place = self.len();
        self.finder.fit_one(self.alloc, &self.cells, self.spare)?;
        self.cells.push_group(members)?;
        self.spare = self.spare.saturating_sub(1);
        Ok(place)
    }

    /// Appends a cell that equals the one at a place, and answers where.
    pub fn add_equal(&mut self, loc: Place) -> Result<Place, AllocError>
        requires within { loc < length self.old.cells }
        ensures place { IfOk result (λ place. place ≡ length self.old.cells) }
        ensures cells { OnOk result (self.new.cells ≡ self.old.cells ++ cell_at self.old.cells loc ∷ []) }
        ensures spare { OnOk result (self.new.spare ≡ self.old.spare - 1) }
        ensures err { OnErr result (self.new ≡ self.old) }
    {
        let place = self.len();
        self.finder.fit_one(self.alloc, &self.cells, self.spare)?;
        self.finder.hold(self.cells.view(loc), place)?;
        if let Err(refused) = self.cells.push_equal(loc) {
            self.finder.release(self.cells.view(loc), place);
            return Err(refused);
        }
        self.spare = self.spare.saturating_sub(1);
        Ok(place)
    }

    /// Appends a cell, with each of its places moved.
    pub fn add_moved(&mut self, cell: View, moves: &Moves) -> Result<(), AllocError>
        ensures cells { let moved = moved_coded (move_of moves.now) (coded cell.entry) in
            OnOk result (self.new.cells ≡ self.old.cells ++ moved ∷ []) }
        ensures spare { OnOk result (self.new.spare ≡ self.old.spare - 1) }
        ensures err { OnErr result (self.new ≡ self.old) }
    {
        let place = self.len();
        self.finder.fit_one(self.alloc, &self.cells, self.spare)?;
        self.finder.hold(cell, place)?;
        if let Err(refused) = self.cells.push_moved(cell, moves) {
            self.finder.release(cell, place);
            return Err(refused);
        }
        self.spare = self.spare.saturating_sub(1);
        Ok(())
    }

    /// Puts a cell in the place of another, with each of its places moved.
    pub fn put_moved(&mut self, loc: Place, cell: View, moves: &Moves) -> Result<(), AllocError>
        requires within { loc < length self.old.cells }
        ensures cells { let moved = moved_coded (move_of moves.now) (coded cell.entry) in
            OnOk result (self.new.cells ≡ with_cell_at self.old.cells loc moved) }
        ensures spare { self.new.spare ≡ self.old.spare }
        ensures err { OnErr result (self.new ≡ self.old) }
    {
        self.cells.put_moved(&mut self.finder, loc, cell, moves)?;
        Ok(())
    }

    /// The cell at a place.
    #[inline(always)]
    pub fn cell(&self, loc: Place) -> View<'_>
        requires within { loc < length self.now.cells }
        ensures cell { coded result ≡ cell_at self.now.cells loc }
    {
        self.cells.view(loc)
    }

    /// The cell at a place, where there is one.
    #[inline(always)]
    pub fn get(&self, loc: Place) -> Option<View<'_>>
        ensures cell { IfSome result (λ c. coded c ≡ cell_at self.now.cells loc) }
        ensures within { IfSome result (λ c. loc < length self.now.cells) }
        ensures none { IfNone result (length self.now.cells ≤ loc) }
    {
        self.cells.get(loc)
    }

    /// The cell at a place, where it is near: all are that where none is shared.
    #[inline(always)]
    pub fn near(&self, loc: Place) -> Option<View<'_>>
        ensures cell { IfSome result (λ c. coded c ≡ cell_at self.now.cells loc) }
        ensures within { IfSome result (λ c. loc < length self.now.cells) }
    {
        self.cells.near_view(loc)
    }

    /// Sets one of the places of a near object, where it has that many. It answers whether it is near.
    #[inline(always)]
    pub fn set_near(&mut self, loc: Place, index: usize, to: Place) -> bool
        ensures cells { let s = self.old.cells in
            let set = with_cell_at s loc (with_place_at index to (cell_at s loc)) in
            IsTrue result → self.new.cells ≡ set }
        ensures spare { self.new.spare ≡ self.old.spare }
        ensures far { IsFalse result → self.new ≡ self.old }
    {
        if self.cells.set_near(loc, index, to) {
            return true;
        }
        false
    }

    /// Sets one of the places of an object, where it has that many. It takes memory only where the
    /// cell is a shared one.
    #[inline(always)]
    pub fn set_place(&mut self, loc: Place, index: usize, to: Place) -> Result<(), AllocError>
        requires within { loc < length self.old.cells }
        ensures cells { let s = self.old.cells in
            let set = with_cell_at s loc (with_place_at index to (cell_at s loc)) in
            OnOk result (self.new.cells ≡ set) }
        ensures spare { self.new.spare ≡ self.old.spare }
        ensures err { OnErr result (self.new ≡ self.old) }
    {
        self.cells.set_place(loc, index, to)?;
        Ok(())
    }

    /// Whether so many cells are better shared than copied.
    pub fn shares(&self, count: usize) -> bool {
        self.cells.shares(count)
    }

    /// Appends the shared cells from one on, each with its places where they go. They are not copied.
    pub fn attach(
        &mut self,
        shared: &Arc<Columns>,
        from: usize,
        shift: Shift,
    ) -> Result<(), AllocError>
        requires within { from ≤ length (arc_value shared.now).items }
        requires plain { ArePlain (arc_value shared.now).items }
        ensures cells { let shared = drop from (arc_value shared.now).items in
            let moved = map (moved_coded (shift_of shift)) shared in
            OnOk result (self.new.cells ≡ self.old.cells ++ moved) }
        ensures err { OnErr result (self.new ≡ self.old) }
    {
        self.finder.fit(self.alloc, &self.cells, shared.len())?;
        self.cells.attach(shared, from, shift)?;
        self.spare = 0;
        Ok(())
    }

    /// The places whose cell is this future, ascending.
    pub fn holders_of(&self, future: &FutureName) -> Result<Vec<Place>, AllocError>
        ensures holders { let places = holders (future_shape future.now) self.now.cells in
            IfOk result (λ v. v.items ≡ places) }
    {
        self.finder.places(self.alloc, &self.cells, future)
    }

    // The same where there may be no room at hand.
    #[inline(never)]
    fn add_far(&mut self, cell: Cell) -> Result<Place, AllocError>
        requires bare { IsBare cell }
        ensures place { IfOk result (λ place. place ≡ length self.old.cells) }
        ensures cells { OnOk result (self.new.cells ≡ self.old.cells ++ bare cell ∷ []) }
        ensures spare { OnOk result (self.new.spare ≡ self.old.spare - 1) }
        ensures room { 0 < self.old.spare → is_some_future (bare cell) ≡ false → IsOk result }
        ensures err { OnErr result (self.new ≡ self.old) }
    {
        let place = self.len();
        self.cells.reserve(1)?;
        self.finder.fit_one(self.alloc, &self.cells, self.spare)?;
        self.finder.hold(cell.lone(), place)?;
        self.cells.push_reserved(cell);
        self.spare = self.spare.saturating_sub(1);
        Ok(place)
    }

    // Takes the last cell out again.
    fn unappend(&mut self)
        requires { 0 < length self.old.cells }
        ensures cells { self.new.cells ≡ take (length self.old.cells - 1) self.old.cells }
        ensures spare { self.new.spare ≡ self.old.spare }
    {
        let last = self.cells.len() - 1;
        self.finder.release(self.cells.view(last), last);
        self.cells.pop();
    }

    /// Takes cells out at the end, down to so many.
    pub fn shorten_to(&mut self, count: usize)
        requires { count ≤ length self.old.cells }
        ensures cells { self.new.cells ≡ take count self.old.cells }
        ensures spare { self.new.spare ≡ self.old.spare }
    {
        while count < self.cells.len() {
            self.unappend();
        }
    }
}

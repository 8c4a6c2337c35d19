//! Cells in two columns: the cells, and the words in which the places of objects and groups lie.

ghost use Rattle.std.specs.Prelude.{
  ◌≡◌,
  ◌<◌,
  ◌≤◌,
  ◌+◌,
  ◌-◌,
  ◌^◌,
  ◌++◌,
  ◌∷◌,
  [],
  IfOk,
  IsOk,
  IsTrue,
  OnErr,
  OnOk,
  length,
  map,
  take,
};
ghost use Rattle.code_table.specs.Cells.{
  ArePlain,
  Group as group_of,
  IsBare,
  IsPlain,
  Object as object_with,
  bare,
  cell_at,
  coded,
  coded_in,
  end_of,
  moved_coded,
  object_coded,
  span_places,
  with_cell_at,
  with_place_at,
};
ghost use Rattle.code_table.specs.Columns.{AreCopies, Grows, IsFresh};
ghost use Rattle.code_table.specs.Moves.{move_of, shift_of};
ghost use Rattle.code_table.specs.Places.{placed};

use crate::cells::{Cell, Object, Place, View, short};
use crate::moves::Moves;
use crate::places::{Places, Shift, shifted};
use std::alloc::{AllocError, Global};
use std::marker::Model;
use std::sync::Arc;

/// Cells, in the order in which they were added. No call ties `AllocError` to what it asks for.
pub struct Columns {
    cells: Vec<Cell>,
    words: Vec<Place>,
}

// Written out, so that crates above drop it by one call.
impl Drop for Columns {
    fn drop(self) {
        let Columns { cells: _, words: _ } = self;
    }
}

impl Model for Columns {
    ghost use Rattle.code_table.specs.ColumnsView.{ColumnsView};

    ghost Value = { ColumnsView };

    ghost use Rattle.std.specs.Coded.{codes};

    ghost coded = { Prim.hlevel codes };

    ghost use Rattle.code_table.specs.Columns.{AreColumns, columns_view};

    ghost view = { columns_view };

    ghost invariant = { AreColumns };
}

impl Columns {
    /// No cells.
    pub fn new(alloc: Global) -> Columns
        ensures items { result.items ≡ [] }
    {
        Columns {
            cells: Vec::new(alloc),
            words: Vec::new(alloc),
        }
    }

    /// No cells, with room for so many cells and so many words.
    pub fn with_room(alloc: Global, cells: usize, words: usize) -> Result<Columns, AllocError>
        ensures items { IfOk result (λ c. c.items ≡ []) }
        ensures free { IfOk result (λ c. cells ≤ c.free) }
        ensures exact { IfOk result (λ c. c.free ≡ cells) }
    {
        Ok(Columns {
            cells: Vec::with_capacity(alloc, cells)?,
            words: Vec::with_capacity(alloc, words)?,
        })
    }

    #[inline(always)]
    pub fn len(&self) -> usize
        ensures { result ≡ length self.now.items }
    {
        self.cells.len()
    }

    /// For how many more cells there is room.
    #[inline(always)]
    pub fn room(&self) -> usize
        ensures room { result ≡ self.now.free }
        ensures bound { length self.now.items + result < 2 ^ 63 }
    {
        self.cells.capacity() - self.cells.len()
    }

    /// The cell at a place.
    #[inline(always)]
    pub fn view(&self, at: Place) -> View<'_>
        requires within { at < length self.now.items }
        ensures view { coded result ≡ cell_at self.now.items at }
    {
        self.cells[at].view(&self.words)
    }

    /// The cell at a place, where its places go elsewhere.
    pub fn view_by<'a>(&'a self, at: Place, shift: &'a Shift) -> View<'a>
        requires within { at < length self.now.items }
        ensures view { let cell = cell_at self.now.items at in
            coded result ≡ moved_coded (shift_of shift.now) cell }
    {
        self.cells[at].view_by(&self.words, shift)
    }

    /// Makes room for so many more cells, but not for their places.
    #[inline(always)]
    pub fn reserve(&mut self, more: usize) -> Result<(), AllocError>
        ensures items { self.new.items ≡ self.old.items }
        ensures free { OnOk result (more ≤ self.new.free) }
        ensures kept { self.old.free ≤ self.new.free }
        ensures succeeds { more ≤ self.old.free → IsOk result }
    {
        self.cells.reserve(more)
    }

    /// Appends a cell that has no words, where there is room.
    #[inline(always)]
    pub fn push_reserved(&mut self, cell: Cell)
        requires bare { IsBare cell }
        requires room { 0 < self.old.free }
        ensures items { self.new.items ≡ self.old.items ++ bare cell ∷ [] }
        ensures free { self.new.free ≡ self.old.free - 1 }
    {
        self.cells.push_reserved(cell);
    }

    /// Appends an object of a class, with these places.
    #[inline(always)]
    pub fn push_object(&mut self, class: usize, places: &[Place]) -> Result<(), AllocError>
        ensures items { let object = object_with class places.now in
            OnOk result (self.new.items ≡ self.old.items ++ object ∷ []) }
        ensures err { OnErr result (self.new.items ≡ self.old.items) }
        ensures free { self.old.free - 1 ≤ self.new.free }
        ensures kept { OnErr result (self.old.free ≤ self.new.free) }
    {
        self.cells.reserve(1)?;
        let cell = object_of(&mut self.words, class, places)?;
        self.cells.push_reserved(cell);
        Ok(())
    }

    /// Appends a group of these members.
    pub fn push_group(&mut self, members: &[Place]) -> Result<(), AllocError>
        ensures items { OnOk result (self.new.items ≡ self.old.items ++ group_of members.now ∷ []) }
        ensures err { OnErr result (self.new.items ≡ self.old.items) }
        ensures free { self.old.free - 1 ≤ self.new.free }
        ensures kept { OnErr result (self.old.free ≤ self.new.free) }
    {
        self.cells.reserve(1)?;
        let cell = group_in(&mut self.words, members)?;
        self.cells.push_reserved(cell);
        Ok(())
    }

    /// Appends a cell, with each of its places moved.
    pub fn push_moved(&mut self, view: View, moves: &Moves) -> Result<(), AllocError>
        ensures items { let cell = moved_coded (move_of moves.now) (coded view.entry) in
            OnOk result (self.new.items ≡ self.old.items ++ cell ∷ []) }
        ensures err { OnErr result (self.new.items ≡ self.old.items) }
        ensures free { self.old.free - 1 ≤ self.new.free }
        ensures kept { OnErr result (self.old.free ≤ self.new.free) }
    {
        self.cells.reserve(1)?;
        let cell = moved_in(&mut self.words, view, moves)?;
        self.cells.push_reserved(cell);
        Ok(())
    }

    /// Appends a cell that equals the one at a place.
    pub fn push_equal(&mut self, at: Place) -> Result<(), AllocError>
        requires within { at < length self.old.items }
        ensures items { OnOk result (self.new.items ≡ self.old.items ++ cell_at self.old.items at ∷ []) }
        ensures err { OnErr result (self.new.items ≡ self.old.items) }
        ensures free { self.old.free - 1 ≤ self.new.free }
        ensures kept { OnErr result (self.old.free ≤ self.new.free) }
    {
        self.cells.reserve(1)?;
        let cell = equal_in(&mut self.words, &self.cells[at])?;
        self.cells.push_reserved(cell);
        Ok(())
    }

    /// Puts the last cell in the place of another.
    pub fn move_last_to(&mut self, at: Place)
        requires within { at + 1 < length self.old.items }
        ensures items { let last = length self.old.items - 1 in
            let others = take last self.old.items in
            self.new.items ≡ with_cell_at others at (cell_at self.old.items last) }
        ensures free { self.old.free + 1 ≤ self.new.free }
    {
        self.cells.swap_remove(at);
    }

    /// Sets one of the places of an object, where it has that many.
    #[inline(always)]
    pub fn set_place(&mut self, at: Place, index: usize, to: Place)
        requires within { at < length self.old.items }
        ensures items { let s = self.old.items in
            self.new.items ≡ with_cell_at s at (with_place_at index to (cell_at s at)) }
        ensures free { self.new.free ≡ self.old.free }
    {
        if let Some(word) = self.cells[at].word(index) {
            self.words[word] = to;
        }
    }

    /// Takes the last cell out. Its words stay behind.
    pub fn pop(&mut self)
        requires some { 0 < length self.old.items }
        ensures items { self.new.items ≡ take (length self.old.items - 1) self.old.items }
        ensures free { self.old.free + 1 ≤ self.new.free }
    {
        self.cells.pop();
    }

    /// Whether none of the cells is a future.
    pub fn are_plain(&self) -> bool
        ensures plain { IsTrue result → ArePlain self.now.items }
    {
        let mut at = 0;
        while at < self.len() {
            if !is_plain(self.view(at)) {
                return false;
            }
            at += 1;
        }
        true
    }

    /// Equal cells, with room for so many more.
    pub fn copy(&self, alloc: Global, room: usize) -> Result<Columns, AllocError>
        ensures items { IfOk result (λ c. c.items ≡ self.now.items) }
    {
        let cells = copies_of(alloc, &self.cells, room)?;
        let words = copy_places(alloc, &self.words)?;
        Ok(Columns { cells, words })
    }
}

fn is_plain(cell: View) -> bool
    ensures plain { IsTrue result → IsPlain (coded cell.entry) }
{
    match cell {
        View::Future(_) => false,
        View::Number(_) => true,
        View::Object(_) => true,
        View::Reference(_) => true,
        View::Group(_) => true,
    }
}

/// Equal places.
pub(crate) fn copy_places(alloc: Global, places: &[Place]) -> Result<Vec<Place>, AllocError>
    ensures { IfOk result (λ v. v.items ≡ places.now) }
{
    let mut copies = Vec::with_capacity(alloc, places.len())?;
    copies.extend_from_slice(places)?;
    Ok(copies)
}

fn copies_of(alloc: Global, cells: &[Cell], room: usize) -> Result<Vec<Cell>, AllocError>
    ensures copies { IfOk result (λ v. AreCopies cells.now v.items) }
{
    let mut copies = Vec::with_capacity(alloc, cells.len().saturating_add(room))?;
    for cell in cells {
        copies.push(cell.copy()?)?;
    }
    Ok(copies)
}

// Where so many words lie that follow the others.
#[inline(always)]
pub(crate) fn span_behind(words: &[Place], count: usize) -> Result<(u32, u32), AllocError>
    ensures { IfOk result (λ r. (r.0 ≡ length words.now) × (r.1 ≡ count)) }
{
    Ok((short(words.len())?, short(count)?))
}

// Appends the places of an object.
#[inline(always)]
fn object_of(words: &mut Vec<Place>, class: usize, places: &[Place]) -> Result<Cell, AllocError>
    ensures cell { let object = object_with class places.now in
        IfOk result (IsFresh words.old.items words.new.items object) }
    ensures grown { Grows words.old.items words.new.items }
{
    let class = short(class)?;
    let (start, count) = span_behind(words, places.len())?;
    words.extend_from_slice(places)?;
    Ok(Cell::Object {
        class,
        start,
        count,
    })
}

// Appends the members of a group.
fn group_in(words: &mut Vec<Place>, members: &[Place]) -> Result<Cell, AllocError>
    ensures cell { IfOk result (IsFresh words.old.items words.new.items (group_of members.now)) }
    ensures grown { Grows words.old.items words.new.items }
{
    let (start, count) = span_behind(words, members.len())?;
    words.extend_from_slice(members)?;
    Ok(Cell::Group { start, count })
}

// Appends the places of a cell, each moved.
fn moved_in(words: &mut Vec<Place>, view: View, moves: &Moves) -> Result<Cell, AllocError>
    ensures cell { let moved = moved_coded (move_of moves.now) (coded view.entry) in
        IfOk result (IsFresh words.old.items words.new.items moved) }
    ensures grown { Grows words.old.items words.new.items }
{
    match view {
        View::Number(n) => Ok(Cell::Number(n)),
        View::Object(object) => moved_object(words, object, moves),
        View::Group(members) => {
            let (start, count) = span_behind(words, members.len())?;
            push_moved_places(words, &members, moves)?;
            Ok(Cell::Group { start, count })
        }
        View::Reference(name) => Ok(Cell::Reference(Arc::try_clone(name)?)),
        View::Future(future) => Ok(Cell::Future(Arc::try_clone(future)?)),
    }
}

fn moved_object(words: &mut Vec<Place>, object: Object, moves: &Moves) -> Result<Cell, AllocError>
    ensures cell { let moved = moved_coded (move_of moves.now) (object_coded object.entry) in
        IfOk result (IsFresh words.old.items words.new.items moved) }
    ensures grown { Grows words.old.items words.new.items }
{
    let class = short(object.class)?;
    let (start, count) = span_behind(words, object.places.len())?;
    push_moved_places(words, &object.places, moves)?;
    Ok(Cell::Object {
        class,
        start,
        count,
    })
}

fn push_moved_places(
    words: &mut Vec<Place>,
    places: &Places,
    moves: &Moves,
) -> Result<(), AllocError>
    ensures places { let moved = map (move_of moves.now) (placed places.now) in
        OnOk result (words.new.items ≡ words.old.items ++ moved) }
    ensures err { OnErr result (words.new.items ≡ words.old.items) }
{
    words.reserve(places.len())?;
    for word in places.words {
        words.push_reserved(moves.moved(shifted(places.shift, *word)));
    }
    Ok(())
}

// Appends the places of a cell that has its own among the same words.
fn equal_in(words: &mut Vec<Place>, cell: &Cell) -> Result<Cell, AllocError>
    requires within { end_of cell.now ≤ length words.old.items }
    ensures cell { let copy = coded_in words.old.items cell.now in
        IfOk result (IsFresh words.old.items words.new.items copy) }
    ensures grown { Grows words.old.items words.new.items }
{
    match cell {
        Cell::Object {
            class,
            start,
            count,
        } => {
            let (behind, count) = repeat(words, *start, *count)?;
            Ok(Cell::Object {
                class: *class,
                start: behind,
                count,
            })
        }
        Cell::Group { start, count } => {
            let (start, count) = repeat(words, *start, *count)?;
            Ok(Cell::Group { start, count })
        }
        Cell::Number(n) => Ok(Cell::Number(*n)),
        Cell::Reference(name) => Ok(Cell::Reference(Arc::try_clone(name)?)),
        Cell::Future(future) => Ok(Cell::Future(Arc::try_clone(future)?)),
    }
}

// Appends words that stand there already, and answers where.
fn repeat(words: &mut Vec<Place>, start: u32, count: u32) -> Result<(u32, u32), AllocError>
    requires within { start + count ≤ length words.old.items }
    ensures words { let ws = span_places words.old.items start count in
        OnOk result (words.new.items ≡ words.old.items ++ ws) }
    ensures span { IfOk result (λ r. (r.0 ≡ length words.old.items) × (r.1 ≡ count)) }
    ensures err { OnErr result (words.new.items ≡ words.old.items) }
{
    let (behind, count) = span_behind(words, count as usize)?;
    words.extend_from_within(start as usize..start as usize + count as usize)?;
    Ok((behind, count))
}

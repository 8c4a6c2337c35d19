//! The cells that a store had before it came to share some, and those that it shares.

ghost use Rattle.std.specs.Prelude.{◌≡◌, ◌<◌, ◌≤◌, ◌+◌, ◌-◌, IfOk, OnErr, length};
ghost use Rattle.std.specs.Bool.{OnFalse, OnTrue};
ghost use Rattle.code_table.specs.Cells.{cell_at, coded, moved_coded, with_cell_at, with_place_at};
ghost use Rattle.code_table.specs.Moves.{move_of};
ghost use Rattle.object_store.specs.Exchanges.{Exchanges};
ghost use Rattle.object_store.specs.Finder.{Follows, but_last};
ghost use Rattle.object_store.specs.Index.{IsAlike};
ghost use Rattle.object_store.specs.Parts.{ArePlaced, HasPlace, part_cells, parts_cells};

use crate::attached::Attached;
use crate::finder::Finder;
use crate::putting::put_in;
use code_table::{Columns, Moves, Place, View};
use std::alloc::AllocError;

/// Cells of a store's own, and behind them shared ones.
#[derive(Drop)]
pub struct Part {
    pub start: Place,
    pub own: Columns,
    pub attached: Attached,
}

impl Part {
    /// The cell with a number.
    fn view(&self, at: usize) -> View<'_>
        requires within { at < length (part_cells self.now) }
        ensures view { coded result ≡ cell_at (part_cells self.now) at }
    {
        if at < self.own.len() {
            return self.own.view(at);
        }
        self.attached.view(at - self.own.len())
    }

    // Sets one of the places of an object, where it is no shared cell, and answers whether it is none.
    fn set_place(&mut self, number: usize, index: usize, to: Place) -> bool
        requires within { number < length (part_cells self.old) }
        ensures set { let s = part_cells self.old in
            let set = with_cell_at s number (with_place_at index to (cell_at s number)) in
            OnTrue result (part_cells self.new ≡ set) }
        ensures same { OnFalse result (part_cells self.new ≡ part_cells self.old) }
        ensures start { self.new.start ≡ self.old.start }
        ensures size { length (part_cells self.new) ≡ length (part_cells self.old) }
    {
        if number < self.own.len() {
            self.own.set_place(number, index, to);
            return true;
        }
        false
    }

    // Puts a cell in the place of another, where that is no shared one, and answers whether it is none.
    fn put_moved(
        &mut self,
        finder: &mut Finder,
        number: usize,
        at: Place,
        cell: View,
        moves: &Moves,
    ) -> Result<bool, AllocError>
        requires within { number < length (part_cells self.old) }
        ensures items { let moved = moved_coded (move_of moves.now) (coded cell.entry) in
            let s = part_cells self.old in
            IfOk result (λ r. OnTrue r (part_cells self.new ≡ with_cell_at s number moved)) }
        ensures noted { let was = cell_at (part_cells self.old) number in
            IfOk result (λ r. OnTrue r (Exchanges was (coded cell.entry) at finder.old finder.new)) }
        ensures same { let s = part_cells self.old in
            IfOk result (λ r. OnFalse r (part_cells self.new ≡ s)) }
        ensures untold { IfOk result (λ r. OnFalse r (finder.new ≡ finder.old)) }
        ensures err { OnErr result (part_cells self.new ≡ part_cells self.old) }
        ensures kept { OnErr result (Follows IsAlike finder.old finder.new) }
        ensures start { self.new.start ≡ self.old.start }
        ensures size { length (part_cells self.new) ≡ length (part_cells self.old) }
    {
        if number < self.own.len() {
            put_in(&mut self.own, finder, number, at, cell, moves)?;
            return Ok(true);
        }
        Ok(false)
    }

    // Takes the last cell out.
    fn pop(&mut self)
        requires some { 0 < length (part_cells self.old) }
        ensures cells { part_cells self.new ≡ but_last (part_cells self.old) }
        ensures start { self.new.start ≡ self.old.start }
    {
        if self.attached.len() > 0 {
            self.attached.pop();
            return;
        }
        self.own.pop();
    }

    fn is_empty(&self) -> bool
        ensures empty { OnTrue result (length (part_cells self.now) ≡ 0) }
        ensures some { OnFalse result (0 < length (part_cells self.now)) }
    {
        if self.own.len() > 0 {
            return false;
        }
        if self.attached.len() > 0 {
            return false;
        }
        true
    }
}

/// The number of the part that has a place.
fn part_at(parts: &Vec<Part>, at: Place) -> usize
    requires placed { ArePlaced 0 parts.now.items }
    requires within { at < length (parts_cells parts.now.items) }
    ensures part { HasPlace parts.now.items at result }
{
    let mut low = 0;
    let mut high = parts.len();
    while high - low > 1 {
        let middle = low + (high - low) / 2;
        if parts[middle].start <= at {
            low = middle;
        } else {
            high = middle;
        }
    }
    low
}

/// The cell at a place.
#[inline(never)]
pub fn view_in(parts: &Vec<Part>, at: Place) -> View<'_>
    requires placed { ArePlaced 0 parts.now.items }
    requires within { at < length (parts_cells parts.now.items) }
    ensures view { coded result ≡ cell_at (parts_cells parts.now.items) at }
{
    let number = part_at(parts, at);
    let start = parts[number].start;
    parts[number].view(at - start)
}

/// Sets one of the places of an object, where it is no shared cell, and answers whether it is none.
#[inline(never)]
pub fn set_in(parts: &mut Vec<Part>, at: Place, index: usize, to: Place) -> bool
    requires placed { ArePlaced 0 parts.old.items }
    requires within { at < length (parts_cells parts.old.items) }
    ensures set { let s = parts_cells parts.old.items in
        let set = with_cell_at s at (with_place_at index to (cell_at s at)) in
        OnTrue result (parts_cells parts.new.items ≡ set) }
    ensures same { OnFalse result (parts_cells parts.new.items ≡ parts_cells parts.old.items) }
    ensures placed { ArePlaced 0 parts.new.items }
{
    let number = part_at(parts, at);
    let start = parts[number].start;
    parts[number].set_place(at - start, index, to)
}

/// Puts a cell in the place of another, with its places moved, where that is no shared one, and
/// answers whether it is none.
pub fn put_moved_in(
    parts: &mut Vec<Part>,
    finder: &mut Finder,
    at: Place,
    cell: View,
    moves: &Moves,
) -> Result<bool, AllocError>
    requires placed { ArePlaced 0 parts.old.items }
    requires within { at < length (parts_cells parts.old.items) }
    ensures items { let moved = moved_coded (move_of moves.now) (coded cell.entry) in
        let s = parts_cells parts.old.items in
        IfOk result (λ r. OnTrue r (parts_cells parts.new.items ≡ with_cell_at s at moved)) }
    ensures noted { let was = cell_at (parts_cells parts.old.items) at in
        IfOk result (λ r. OnTrue r (Exchanges was (coded cell.entry) at finder.old finder.new)) }
    ensures same { let s = parts_cells parts.old.items in
        IfOk result (λ r. OnFalse r (parts_cells parts.new.items ≡ s)) }
    ensures untold { IfOk result (λ r. OnFalse r (finder.new ≡ finder.old)) }
    ensures err { OnErr result (parts_cells parts.new.items ≡ parts_cells parts.old.items) }
    ensures kept { OnErr result (Follows IsAlike finder.old finder.new) }
    ensures placed { ArePlaced 0 parts.new.items }
{
    let number = part_at(parts, at);
    let start = parts[number].start;
    parts[number].put_moved(finder, at - start, at, cell, moves)
}

/// Takes the last cell out.
pub fn pop_of(parts: &mut Vec<Part>)
    requires placed { ArePlaced 0 parts.old.items }
    requires some { 0 < length (parts_cells parts.old.items) }
    ensures cells { parts_cells parts.new.items ≡ but_last (parts_cells parts.old.items) }
    ensures placed { ArePlaced 0 parts.new.items }
{
    if let Some(mut part) = parts.pop() {
        part.pop();
        if !part.is_empty() {
            parts.push_reserved(part);
        }
    }
}

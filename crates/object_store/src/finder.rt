//! How a store finds the cells that hold a future.

ghost use Rattle.std.specs.Prelude.{◌≡◌, ◌<◌, false, IfOk, IsOk, OnErr, OnOk};
ghost use Rattle.asp_model.specs.Shapes.{future_shape};
ghost use Rattle.code_table.specs.Cells.{coded};
ghost use Rattle.object_store.specs.Finder.{Follows, IsFitting};
ghost use Rattle.object_store.specs.Holders.{holders, is_future as is_future_in, is_some_future};
ghost use Rattle.object_store.specs.Index.{ChangesWhere, IsAlike, is_given_up, is_in_cell};
ghost use Rattle.object_store.specs.Places.{with_place, without_place};

use crate::index::Index;
use crate::stock::Stock;
use asp_model::FutureName;
use code_table::{Place, View};
use std::alloc::{AllocError, Global};

// So many cells are looked through, one after the other.
const FEW: usize = 16;

/// Few cells are looked through, and more have an index.
#[derive(Drop)]
pub enum Finder {
    /// Nothing is noted of the cells.
    Look,
    Indexed(Box<Index>),
}

impl Finder {
    /// Makes the index where these cells and so many more are no longer few.
    #[inline(always)]
    pub fn fit(&mut self, alloc: Global, cells: &Stock, more: usize) -> Result<(), AllocError>
        ensures { let s = cells.now.items in IsFitting self.old s → IsFitting self.new s }
    {
        match self {
            Finder::Look if cells.len().saturating_add(more) > FEW => self.make(alloc, cells),
            _ => Ok(()),
        }
    }

    /// Makes the index where one more cell is one too many, unless there is room to spare for it.
    #[inline(always)]
    pub fn fit_one(&mut self, alloc: Global, cells: &Stock, spare: usize) -> Result<(), AllocError>
        ensures fits { let s = cells.now.items in IsFitting self.old s → IsFitting self.new s }
        ensures room { 0 < spare → IsOk result }
    {
        if spare > 0 {
            Ok(())
        } else {
            self.fit(alloc, cells, 1)
        }
    }

    #[inline(never)]
    fn make(&mut self, alloc: Global, cells: &Stock) -> Result<(), AllocError>
        ensures { let s = cells.now.items in IsFitting self.old s → IsFitting self.new s }
    {
        let index = Index::of(alloc, cells)?;
        *self = Finder::Indexed(Box::new(alloc, index)?);
        Ok(())
    }

    /// The places of the cells that are this future, ascending.
    pub fn places(
        &self,
        alloc: Global,
        cells: &Stock,
        future: &FutureName,
    ) -> Result<Vec<Place>, AllocError>
        requires { IsFitting self.now cells.now.items }
        ensures places { let places = holders (future_shape future.now) cells.now.items in
            IfOk result (λ v. v.items ≡ places) }
    {
        match self {
            Finder::Look => look_through(alloc, cells, future),
            Finder::Indexed(index) => index.places(future),
        }
    }

    /// Notes the place of a cell, where it is a future.
    #[inline(always)]
    pub fn hold(&mut self, cell: View, place: Place) -> Result<(), AllocError>
        ensures places { let here = is_in_cell (coded cell.entry) in
            OnOk result (Follows (ChangesWhere here (with_place place)) self.old self.new) }
        ensures room { is_some_future (coded cell.entry) ≡ false → IsOk result }
        ensures err { OnErr result (Follows IsAlike self.old self.new) }
    {
        match self {
            Finder::Look => Ok(()),
            Finder::Indexed(index) => index.hold(cell, place),
        }
    }

    /// Forgets the place of a cell, where it is a future.
    pub fn release(&mut self, cell: View, place: Place)
        ensures places { let here = is_in_cell (coded cell.entry) in
            Follows (ChangesWhere here (without_place place)) self.old self.new }
    {
        match self {
            Finder::Look => {}
            Finder::Indexed(index) => index.release(cell, place),
        }
    }

    /// Forgets the place of a cell that another one takes.
    pub fn give_up(&mut self, old: View, new: View, place: Place)
        ensures places { let gone = is_given_up (coded old.entry) (coded new.entry) in
            Follows (ChangesWhere gone (without_place place)) self.old self.new }
    {
        match self {
            Finder::Look => {}
            Finder::Indexed(index) => index.give_up(old, new, place),
        }
    }
}

fn look_through(alloc: Global, cells: &Stock, future: &FutureName) -> Result<Vec<Place>, AllocError>
    ensures places { let places = holders (future_shape future.now) cells.now.items in
        IfOk result (λ v. v.items ≡ places) }
{
    let mut places = Vec::with_capacity(alloc, 1)?;
    let mut place = 0;
    while place < cells.len() {
        if is_future(cells.view(place), future) {
            places.push(place)?;
        }
        place += 1;
    }
    Ok(places)
}

fn is_future(cell: View, future: &FutureName) -> bool
    ensures { result ≡ is_future_in (future_shape future.now) (coded cell.entry) }
{
    match cell {
        View::Future(held) => held.name == *future,
        _ => false,
    }
}

//! The places that hold each future.

ghost use Rattle.std.specs.Prelude.{◌≡◌, [], false, IfOk, IsOk, IsSome, IsTrue, OnErr, OnOk};
ghost use Rattle.indexmap.specs.IndexMap.{get};
ghost use Rattle.code_table.specs.Cells.{coded};
ghost use Rattle.object_store.specs.Holders.{is_one_future as one_future, is_some_future};
ghost use Rattle.object_store.specs.Index.{
  Changes,
  ChangesWhere,
  IsAlike,
  IsIndexed,
  is_given_up,
  is_in_cell,
  is_same,
  places_in,
};
ghost use Rattle.object_store.specs.Places.{places_of, with_place, without_place};

use crate::places::Places;
use crate::stock::Stock;
use asp_model::FutureName;
use code_table::{Place, View};
use indexmap::IndexMap;
use std::alloc::{AllocError, Global};

/// For each future that is held the places that hold it.
#[derive(Drop)]
pub struct Index {
    alloc: Global,
    held: IndexMap<FutureName, Places>,
}

impl Index {
    pub fn new(alloc: Global) -> Index
        ensures none { (f : FutureName) → places_in result f ≡ [] }
    {
        Index {
            alloc,
            held: IndexMap::new(alloc),
        }
    }

    /// The index of a store with these cells.
    pub fn of(alloc: Global, cells: &Stock) -> Result<Index, AllocError>
        ensures indexed { IfOk result (λ index. IsIndexed index cells.now.items) }
    {
        let mut index = Index::new(alloc);
        let mut place = 0;
        while place < cells.len() {
            index.hold(cells.view(place), place)?;
            place += 1;
        }
        Ok(index)
    }

    /// The places of a future, ascending.
    pub fn places(&self, future: &FutureName) -> Result<Vec<Place>, AllocError>
        ensures places { IfOk result (λ v. v.items ≡ places_in self.now future.now) }
    {
        match self.held.get(future) {
            Some(places) => places.listed(self.alloc),
            None => Ok(Vec::new(self.alloc)),
        }
    }

    /// Adds a place to those of a future, if it is not there.
    #[inline(never)]
    pub fn insert(&mut self, future: &FutureName, place: Place) -> Result<(), AllocError>
        ensures places { OnOk result (Changes future.now (with_place place) self.old self.new) }
        ensures err { OnErr result (IsAlike self.old self.new) }
    {
        let name = future.copy(self.alloc)?;
        match self.held.insert(name, Places::At(place))? {
            None => Ok(()),
            Some(known) => self.put_more(future, known, place),
        }
    }

    // Writes the places that a future had with one more, or as they were where memory is refused.
    fn put_more(
        &mut self,
        future: &FutureName,
        known: Places,
        place: Place,
    ) -> Result<(), AllocError>
        requires known { IsSome (get is_same self.old.held future.now) }
        ensures places { let more = with_place place (places_of known) in
            OnOk result (Changes future.now (λ _. more) self.old self.new) }
        ensures err { OnErr result (Changes future.now (λ _. places_of known) self.old self.new) }
    {
        let mut places = known;
        let added = places.insert(self.alloc, place);
        match self.held.get_mut(future) {
            Some(here) => {
                *here = places;
                added
            }
            None => added,
        }
    }

    /// Takes a place from those of a future, which is forgotten with its last place.
    pub fn remove(&mut self, future: &FutureName, place: Place)
        ensures places { Changes future.now (without_place place) self.old self.new }
    {
        if self.take_out(future, place) {
            self.held.swap_remove(future);
        }
    }

    // Takes a place from those of a future, and answers whether it was the last one.
    fn take_out(&mut self, future: &FutureName, place: Place) -> bool
        ensures places { Changes future.now (without_place place) self.old self.new }
        ensures none { IsTrue result → places_in self.new future.now ≡ [] }
    {
        match self.held.get_mut(future) {
            Some(places) => {
                places.remove(place);
                places.is_empty()
            }
            None => false,
        }
    }

    /// Notes the place of a cell, where it is a future.
    #[inline(always)]
    pub fn hold(&mut self, cell: View, place: Place) -> Result<(), AllocError>
        ensures places { let here = is_in_cell (coded cell.entry) in
            OnOk result (ChangesWhere here (with_place place) self.old self.new) }
        ensures room { is_some_future (coded cell.entry) ≡ false → IsOk result }
        ensures err { OnErr result (IsAlike self.old self.new) }
    {
        match cell {
            View::Future(future) => self.insert(&future.name, place),
            _ => Ok(()),
        }
    }

    /// Forgets the place of a cell, where it is a future.
    pub fn release(&mut self, cell: View, place: Place)
        ensures places { let here = is_in_cell (coded cell.entry) in
            ChangesWhere here (without_place place) self.old self.new }
    {
        if let View::Future(future) = cell {
            self.remove(&future.name, place);
        }
    }

    /// Forgets the place of a cell that another one takes.
    pub fn give_up(&mut self, old: View, new: View, place: Place)
        ensures places { let gone = is_given_up (coded old.entry) (coded new.entry) in
            ChangesWhere gone (without_place place) self.old self.new }
    {
        if !is_one_future(old, new) {
            self.release(old, place);
        }
    }
}

fn is_one_future(first: View, second: View) -> bool
    ensures { result ≡ one_future (coded first.entry) (coded second.entry) }
{
    match (first, second) {
        (View::Future(one), View::Future(other)) => one.name == other.name,
        _ => false,
    }
}

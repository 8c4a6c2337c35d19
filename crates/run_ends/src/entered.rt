//! The places at which values are entered, by numbers. So a place is a pair of numbers, however deep
//! it lies in values.

ghost use Rattle.std.specs.Prelude.{◌≡◌, ◌+◌, ◌≤◌, ◌<◌, ◌^◌, [], IfOk, OnOk};
ghost use Rattle.def_paths.specs.Places.{Side, entered};
ghost use Rattle.run_ends.specs.Reads.{IsAt, seen_value};
ghost use Rattle.run_ends.specs.Spots.{
  EntersAt,
  Grows,
  HasValues,
  IsHome,
  IsNumbered,
  IsSpot,
  numbered_place,
  place_of,
  places_in,
  size_of,
};

use code_table::{Parcel, Place};
use indexmap::IndexSet;
use std::alloc::{AllocError, Global};

/// Where one reads: a cell of the store, or of a value. The root of a value stands where the value is
/// entered.
#[derive(Clone, Copy)]
pub enum At<'a> {
    Store(Place),
    Value(&'a Parcel, Place),
}

/// A place: a cell of the store, where `home` is 0, or of the value that is entered at the spot of the
/// number below. No spot is the root of a value, since that stands where the value is entered.
#[derive(Clone, Copy, PartialEq, Eq, Hash, Drop)]
pub struct Spot {
    pub home: usize,
    pub cell: Place,
}

/// The spots at which values are entered, each with its value. Their order gives them numbers.
#[derive(Drop)]
pub struct Entered<'a> {
    pub spots: IndexSet<Spot>,
    pub values: Vec<&'a Parcel>,
}

impl<'a> Entered<'a> {
    /// No value is entered.
    pub fn new(alloc: Global) -> Entered<'a>
        ensures numbered { IsNumbered result }
        ensures none { result.spots.keys ≡ [] }
    {
        Entered {
            spots: IndexSet::new(alloc),
            values: Vec::new(alloc),
        }
    }

    /// Where one reads at a spot.
    pub fn at(&self, spot: Spot) -> At<'a>
        requires numbered { IsNumbered self.now }
        requires within { spot.home ≤ size_of self.now }
        ensures at { (a : Side) → HasValues a self.now → IsAt a result (place_of self.now spot) }
    {
        if spot.home == 0 {
            At::Store(spot.cell)
        } else {
            At::Value(self.values[spot.home - 1], spot.cell)
        }
    }

    /// Where the cells stand that the cell holds which is read at a spot: the number of the spot and 1,
    /// where a value is entered there.
    pub fn home(&mut self, spot: Spot, value: Option<&'a Parcel>) -> Result<usize, AllocError>
        requires numbered { IsNumbered self.old }
        requires spot { IsSpot (size_of self.old) spot }
        ensures numbered { OnOk result (IsNumbered self.new) }
        ensures grows { OnOk result (Grows self.old self.new) }
        ensures within { IfOk result (λ home. home ≤ size_of self.new) }
        ensures home { (a : Side) → HasValues a self.old
            → seen_value value.entry ≡ entered a (place_of self.old spot)
            → IfOk result (λ home. HasValues a self.new
            × IsHome a (place_of self.old spot) self.new home) }
    {
        match value {
            Some(value) => Ok(self.number(spot, value)? + 1),
            None => Ok(spot.home),
        }
    }

    // The number of a spot at which this value is entered.
    fn number(&mut self, spot: Spot, value: &'a Parcel) -> Result<usize, AllocError>
        ensures enters { IfOk result (λ k. EntersAt spot value.entry self.old self.new k) }
        ensures within { IfOk result (λ k. k + 1 < 2 ^ 64) }
    {
        let (number, is_new) = self.spots.insert_full(spot)?;
        if is_new {
            self.values.push(value)?;
        }
        // Read for `within`: the number of spots is a number.
        let _count = self.spots.len();
        Ok(number)
    }

    /// The spot of a cell, which is the spot where the value is entered, if it is the value's root.
    pub fn spot(&self, home: usize, cell: Place) -> Spot
        requires numbered { IsNumbered self.now }
        requires within { home ≤ size_of self.now }
        ensures spot { IsSpot (size_of self.now) result }
        ensures place { place_of self.now result
            ≡ numbered_place (places_in self.now) home cell }
    {
        if home > 0 && cell == 0 {
            self.spots[home - 1]
        } else {
            Spot { home, cell }
        }
    }
}

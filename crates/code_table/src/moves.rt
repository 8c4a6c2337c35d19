//! Where places go.

ghost use Rattle.std.specs.Prelude.{◌≡◌};
ghost use Rattle.asp_model.specs.Parcel.{number_in};
ghost use Rattle.code_table.specs.Moves.{move_of};

use crate::cells::Place;
use crate::places::Shift;
use indexmap::IndexSet;

/// Where places go.
#[derive(Clone, Copy)]
pub enum Moves<'a> {
    /// Each one to its number in this short order.
    ToFew(&'a [Place]),
    /// Each one to its number in this order.
    ToNumber(&'a IndexSet<Place>),
    /// Each one where it goes in a store.
    By(Shift),
    /// Each one stays.
    Stay,
}

impl Moves<'_> {
    /// Where a place goes. No place goes past the greatest one.
    pub fn moved(&self, place: Place) -> Place
        ensures place { result ≡ move_of self.now place }
    {
        match self {
            Moves::ToFew(order) => number_in_few(order, place),
            Moves::ToNumber(order) => order.get_index_of(&place).unwrap_or(order.len()),
            Moves::By(shift) => shift.moved(place),
            Moves::Stay => place,
        }
    }
}

/// A place's number in a short order, or the length where it is not there.
pub fn number_in_few(order: &[Place], place: Place) -> Place
    ensures { result ≡ number_in order.now place }
{
    let mut number = 0;
    while number < order.len() {
        if order[number] == place {
            return number;
        }
        number += 1;
    }
    number
}

//! The state of a core.

ghost use Rattle.std.specs.Prelude.{◌≡◌, Some, length, map, slice_get};
ghost use Rattle.asp_model.specs.Shapes.{entry_shape};
ghost use Rattle.core_seats.specs.Seats.{IsKnown, names_in, seats_in};
ghost use Rattle.core_state.specs.Journal.{entries_in};
ghost use Rattle.core_state.specs.Cores.{IsSomeCore};

use crate::journal::Journal;
use asp_model::{ActivityName, Entry};
use core_ranks::Ranks;
use core_seats::Seats;
use future_table::FutureTable;
use request_queue::Request;
use std::alloc::Global;
use step_activity::Actor;

/// The activities by numbers, each here or lent; where they stand; the futures that are filled; the
/// journal; what is left of the budget; and how many leases there were.
#[derive(Drop)]
pub struct CoreState {
    pub alloc: Global,
    pub seats: Seats<Actor, Request>,
    pub ranks: Ranks,
    pub futures: FutureTable,
    pub journal: Journal,
    pub left: u64,
    pub bursts: u64,
}

impl CoreState {
    /// How many activities there are.
    pub fn activities(&self) -> usize
        ensures { result ≡ length (seats_in self.now.seats) }
    {
        self.seats.len()
    }

    /// The name of an activity.
    pub fn name(&self, number: u32) -> &ActivityName
        requires core { IsSomeCore self.now }
        requires known { IsKnown number self.now.seats }
        ensures name { slice_get (names_in self.now.seats) number ≡ Some result.now }
    {
        self.seats.name(number)
    }

    /// The journal.
    pub fn entries(&self) -> &[Entry]
        ensures entries { map entry_shape result.now ≡ entries_in self.now.journal }
    {
        self.journal.entries()
    }
}

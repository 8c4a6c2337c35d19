//! How a hub is made, how its seats come to be, and how it ends.

ghost use Rattle.std.specs.Prelude.{
  ◌≡◌,
  ◌≢◌,
  ◌+◌,
  ◌-◌,
  ◌<◌,
  ◌≤◌,
  All,
  sum_by,
  IfOk,
  MatchResult,
  None,
};
ghost use Rattle.asp_model.specs.History.{BeginsWith};
ghost use Rattle.asp_model.specs.declared.limits.TheConstants.{MOST_SEATS};
ghost use Rattle.turn_hub.specs.Seats.{
  AllIn,
  IsFree,
  IsNew,
  IsOf,
  KeepsView,
  opened_with,
  seats_of,
  seen_by,
  taken_by,
};

use super::Hub;
use crate::calls::Calls;
use crate::closing::{empty_slot, gather};
use crate::lends::Lends;
use crate::rule::Cut;
use crate::seat::Seat;
use crate::view::Opening;
use atomic_table::Table;
use std::alloc::{AllocError, Global};
use std::snapshot::Snapshot;

/// The seat has one part alone.
#[derive(Clone, Copy, PartialEq, Eq, Debug)]
pub struct Full;

impl<H: Lends> Hub<H> {
    /// A hub for so many seats, and its first seat, which can give all the others.
    pub fn new(alloc: Global, value: H, seats: u32) -> Result<(Hub<H>, Seat<H>), AllocError>
        requires seats { (0 < seats) × (seats ≤ MOST_SEATS) }
        requires all_in { AllIn H.out value seats }
        requires kept { H.keeps value value }
        ensures hub { IfOk result (λ r. (seats_of r.0 ≡ seats) × (opened_with r.0 ≡ value)) }
        ensures seat { IfOk result (λ r. IsNew r.0 r.1 0 seats) }
        ensures history { IfOk result (λ r. seen_by r.1 ≡ H.history value) }
    {
        let about = Opening {
            seats,
            first: Snapshot::of(&value),
        };
        let mut slots = Vec::new(alloc);
        slots.push(Some(value))?;
        // A table is refused if it cannot have its memory, and for no other reason.
        let Ok((table, place)) = Table::new(alloc, &[0], slots, &about) else {
            return Err(AllocError);
        };
        let hub = Hub {
            table,
            calls: Calls::new(),
        };
        let seat = Seat {
            place,
            number: 0,
            parts: seats,
            among: seats,
            heard: 0,
        };
        Ok((hub, seat))
    }

    /// A seat of one part, where the old one can give it.
    pub fn split(&self, seat: &mut Seat<H>) -> Result<Seat<H>, Full>
        requires hub { IsOf self.now seat.old }
        requires no_turn { taken_by seat.old ≡ None }
        ensures full { MatchResult result (λ _. seat.old.parts ≢ 1) (λ _. seat.old.parts ≡ 1) }
        ensures new { let last = seat.old.number + seat.old.parts - 1 in
            IfOk result (λ new. IsNew self.now new last 1 × (seen_by new ≡ seen_by seat.old)) }
        ensures parts { MatchResult result
            (λ _. seat.new.parts + 1 ≡ seat.old.parts) (λ _. seat.new.parts ≡ seat.old.parts) }
        ensures seat { (seat.new.number ≡ seat.old.number) × IsOf self.now seat.new }
        ensures kept { KeepsView seat.old seat.new }
        ensures no_turn { taken_by seat.new ≡ None }
    {
        if seat.parts == 1 {
            return Err(Full);
        }
        let place = self.table.shared.split_seat::<Cut>(&mut seat.place);
        seat.parts -= 1;
        Ok(Seat {
            place,
            number: seat.number + seat.parts,
            parts: 1,
            among: seat.among,
            heard: seat.heard,
        })
    }

    /// The value, where all seats come back.
    pub fn close(self, seats: Vec<Seat<H>>) -> H
        requires seats { All (λ s. IsOf self s × IsFree s) seats.items }
        requires all { sum_by (λ s. s.parts) seats.items ≡ seats_of self }
        ensures history { All (λ s. BeginsWith (H.history result) (seen_by s)) seats.items }
        ensures all_in { AllIn H.out result (seats_of self) }
        ensures kept { H.keeps (opened_with self) result }
    {
        let Hub { table, calls: _ } = self;
        let place = gather(&table.shared, seats);
        empty_slot(table, place)
    }
}

//! The end of a hub: its seats become one, which has every part.

ghost use Rattle.std.specs.Prelude.{◌≡◌, ℕ, ◌+◌, ◌<◌, All, sum_by, length};
ghost use Rattle.asp_model.specs.History.{BeginsWith};
ghost use Rattle.turn_hub.specs.Numbers.{IsSized};
ghost use Rattle.turn_hub.specs.Seats.{AllIn, AllKnown, IsAt, IsFree, IsIdle, Knows, seen_by};

use crate::hub::Board;
use crate::lends::Lends;
use crate::rule::{Meet, Top};
use crate::seat::{Place, Seat};

/// All seats as one.
pub(crate) fn gather<H: Lends>(top: &Top<H>, seats: Vec<Seat<H>>) -> Place<H>
    requires table { IsSized top.now.table_id }
    requires some { 0 < sum_by (λ s. s.parts) seats.items }
    requires seats { All (λ s. IsAt top.now.table_id top.now.key s × IsFree s) seats.items }
    ensures same { (result.table_id ≡ top.now.table_id) × IsIdle result.me }
    ensures parts { length result.me.0.numbers ≡ sum_by (λ s. s.parts) seats.items }
    ensures knows { (h : H) → Knows H.history H.out h result.me.0 →
        AllKnown H.history h seats.items }
{
    let mut rest = seats;
    let Some(first) = rest.pop() else {
        unreachable!()
    };
    let mut place = opened(top, first);
    take_in_all(top, &mut place, rest);
    place
}

// The first of the seats.
fn opened<H: Lends>(top: &Top<H>, seat: Seat<H>) -> Place<H>
    requires seat { IsAt top.now.table_id top.now.key seat × IsFree seat }
    ensures same { (result.table_id ≡ top.now.table_id) × IsIdle result.me }
    ensures parts { length result.me.0.numbers ≡ seat.parts }
    ensures seen { result.me.0.seen ≡ seen_by seat }
{
    let _top = top;
    let Seat { place, .. } = seat;
    place
}

// All other seats join it.
fn take_in_all<H: Lends>(top: &Top<H>, place: &mut Place<H>, seats: Vec<Seat<H>>)
    requires table { (place.old.table_id ≡ top.now.table_id) × IsSized top.now.table_id }
    requires idle { IsIdle place.old.me }
    requires seats { All (λ s. IsAt top.now.table_id top.now.key s × IsFree s) seats.items }
    ensures same { (place.new.table_id ≡ top.now.table_id) × IsIdle place.new.me }
    ensures parts { let before = length place.old.me.0.numbers in
        length place.new.me.0.numbers ≡ before + sum_by (λ s. s.parts) seats.items }
    ensures knows { (h : H) → Knows H.history H.out h place.new.me.0 →
        Knows H.history H.out h place.old.me.0 × AllKnown H.history h seats.items }
{
    let mut rest = seats;
    while let Some(seat) = rest.pop() {
        take_in(top, place, seat);
    }
}

// One more seat joins the place.
fn take_in<H: Lends>(top: &Top<H>, place: &mut Place<H>, seat: Seat<H>)
    requires table { (place.old.table_id ≡ top.now.table_id) × IsSized top.now.table_id }
    requires idle { IsIdle place.old.me }
    requires seat { IsAt top.now.table_id top.now.key seat × IsFree seat }
    ensures same { (place.new.table_id ≡ place.old.table_id) × IsIdle place.new.me }
    ensures parts { let before = length place.old.me.0.numbers in
        length place.new.me.0.numbers ≡ before + seat.parts }
    ensures knows { (h : H) → Knows H.history H.out h place.new.me.0 →
        Knows H.history H.out h place.old.me.0 × BeginsWith (H.history h) (seen_by seat) }
{
    let Seat { place: other, .. } = seat;
    top.join_seat::<Meet>(place, other);
}

/// The value, by the seat that has every part.
pub(crate) fn empty_slot<H: Lends>(table: Board<H>, place: Place<H>) -> H
    requires table { (place.table_id ≡ table.shared.table_id) × IsSized table.shared.table_id }
    requires idle { IsIdle place.me }
    requires all { length place.me.0.numbers ≡ table.shared.key.seats }
    requires some { 0 < table.shared.key.seats }
    ensures knows { Knows H.history H.out result place.me.0 }
    ensures all_in { AllIn H.out result table.shared.key.seats }
    ensures kept { H.keeps table.shared.key.first.value result }
{
    let mut closed = table.close_with(place);
    let value = closed.take(0);
    closed.free();
    match value {
        Some(value) => value,
        None => unreachable!(),
    }
}

//! How the turn is taken and given back, and how a seat rests between its turns.

ghost use Rattle.std.specs.Prelude.{◌≡◌, None, Some};
ghost use Rattle.asp_model.specs.History.{BeginsWith};
ghost use Rattle.turn_hub.specs.Seats.{
  IsOf,
  IsSame,
  KeepsView,
  MayGive,
  opened_with,
  out_with,
  seen_by,
  taken_by,
};

use super::Hub;
use crate::lends::Lends;
use crate::seat::Seat;
use crate::turns::{get_turn, give_up, pick_up};
use std::sync::Wait;

impl<H: Lends> Hub<H> {
    /// Takes the turn, and with it the value. While another seat has the turn it waits: it looks a
    /// few times, and then sleeps until a turn is given back.
    pub fn take<R: Wait>(&self, rt: &R, seat: &mut Seat<H>) -> H
        requires hub { IsOf self.now seat.old }
        requires no_turn { taken_by seat.old ≡ None }
        ensures seat { IsSame seat.old seat.new }
        ensures taken { taken_by seat.new ≡ Some result }
        ensures history { BeginsWith (H.history result) (seen_by seat.old) }
        ensures out { H.out result seat.old.number ≡ out_with seat.old }
        ensures kept { H.keeps (opened_with self.now) result }
        ensures view { KeepsView seat.old seat.new }
    {
        get_turn(rt, &self.table.shared, &mut seat.place);
        pick_up(&self.table.shared, &mut seat.place)
    }

    /// Gives the value back, and the turn with it. With `more` others may find work now: one seat
    /// that rests is woken, and each seat that was about to rest does not.
    pub fn give(&self, seat: &mut Seat<H>, value: H, more: bool)
        requires hub { IsOf self.now seat.old }
        requires has_turn { MayGive H.history H.out seat.old value }
        requires kept { H.keeps (opened_with self.now) value }
        ensures seat { IsSame seat.old seat.new }
        ensures no_turn { taken_by seat.new ≡ None }
        ensures history { seen_by seat.new ≡ H.history value }
        ensures out { out_with seat.new ≡ H.out value seat.old.number }
    {
        seat.heard = if more {
            self.calls.call()
        } else {
            self.calls.count()
        };
        give_up(&self.table.shared, &mut seat.place, value);
        if more {
            self.calls.wake();
        }
    }

    /// For a seat that found nothing to do at its last turn. It returns at once where a turn was
    /// given back with `more` since then, and else sleeps until one is. It may also return for no
    /// reason, so the seat looks for work again in a turn. Who is woken and finds work, or ends, has
    /// to give with `more` where work is left, or where the others are to end too.
    pub fn rest<R: Wait>(&self, rt: &R, seat: &Seat<H>)
        requires hub { IsOf self.now seat.now }
        requires no_turn { taken_by seat.now ≡ None }
    {
        self.calls.rest(rt, seat.heard);
    }
}

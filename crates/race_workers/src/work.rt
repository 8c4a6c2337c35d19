//! What one worker does.

ghost use Rattle.std.specs.Prelude.{◌≡◌, None};
ghost use Rattle.long_leases.specs.LongLeases.{IsLongLease};
ghost use Rattle.turn_hub.specs.Seats.{IsOf, taken_by};
ghost use Rattle.race_desks.specs.Turns.{IsFinished};
ghost use Rattle.race_workers.specs.Working.{AreReady, HasRows, IsAtWork};

use crate::seats::Seats;
use long_leases::LongLease;
use race_desks::{Gate, Margin, SharedDesk, leave, work_at};
use std::sync::Wait;
use turn_hub::{Hub, Seat};
use update_policy::UpdatePolicy;

// What a worker does behind a turn at one of its seats.
#[derive(Drop)]
pub(crate) struct Turned {
    pub(crate) rests: bool,
    pub(crate) ends: bool,
    // Whether it may have a second lease: more is ready, and nobody waits for it.
    pub(crate) spare: bool,
}

// A turn of a worker at one of its seats, with the lease that it has there, which has stopped, and
// which another one follows, or none. Where others may find work, one is called if not all are
// busy and the margin allows it; where they are to end, in any case.
fn take_turn<R: Wait, P: UpdatePolicy + Drop>(
    rt: &R,
    hub: &Hub<SharedDesk<P>>,
    seat: &mut Seat<SharedDesk<P>>,
    margin: &mut Margin,
    held: &mut Option<LongLease>,
    may_rest: bool,
) -> Turned
    requires rows { HasRows hub.now }
    requires seat { IsAtWork IsFinished hub.now seat.old held.old }
    ensures seat { IsAtWork IsLongLease hub.now seat.new held.new }
{
    let mut desk = hub.take(rt, seat);
    let (next, more) = desk.turn(seat.number(), held, may_rest);
    let all_busy = desk.are_all_busy();
    let ends = next.is_end();
    let call = margin.calls(more, ends, all_busy);
    let spare = margin.allows_second(more, all_busy);
    hub.give(seat, desk, call);
    Turned {
        rests: next.is_rest(),
        ends,
        spare,
    }
}

// A turn at a worker's second seat, where that has a lease, or is to get one.
fn take_second<R: Wait, P: UpdatePolicy + Drop>(
    rt: &R,
    hub: &Hub<SharedDesk<P>>,
    seat: &mut Seat<SharedDesk<P>>,
    margin: &mut Margin,
    held: &mut Option<LongLease>,
    wants: bool,
)
    requires rows { HasRows hub.now }
    requires seat { IsAtWork IsFinished hub.now seat.old held.old }
    ensures seat { IsAtWork IsLongLease hub.now seat.new held.new }
{
    if wants || held.is_some() {
        let _turned = take_turn(rt, hub, seat, margin, held, !wants);
    }
}

// Rests, if it is to.
fn rest_if<R: Wait, P: UpdatePolicy + Drop>(
    rt: &R,
    hub: &Hub<SharedDesk<P>>,
    seat: &Seat<SharedDesk<P>>,
    margin: &mut Margin,
    rests: bool,
)
    requires hub { IsOf hub.now seat.now }
    requires no_turn { taken_by seat.now ≡ None }
{
    if rests {
        hub.rest(rt, seat);
        margin.rested();
    }
}

/// Takes turns until the verdict is there, or the core is spent, and works between them.
pub(crate) fn work<R: Wait, P: UpdatePolicy + Drop, G: Gate>(
    rt: &R,
    hub: &Hub<SharedDesk<P>>,
    seats: &mut Seats<P>,
    gate: &G,
)
    requires rows { HasRows hub.now }
    requires ready { AreReady hub.now seats.old }
    ensures ready { AreReady hub.now seats.new }
{
    let worker = seats.first.number() / 2 + 1;
    let mut margin = Margin::new();
    let mut one = None;
    let mut two = None;
    for _ in rt.forever() {
        let may_rest = margin.is_gone();
        let Turned { rests, ends, spare } = take_turn(
            rt,
            hub,
            &mut seats.first,
            &mut margin,
            &mut one,
            may_rest,
        );
        take_second(rt, hub, &mut seats.second, &mut margin, &mut two, spare);
        if ends && one.is_none() && two.is_none() {
            leave(one);
            leave(two);
            return;
        }
        let rests = rests && two.is_none();
        rest_if(rt, hub, &seats.first, &mut margin, rests);
        work_at(gate, worker, &mut margin, &mut one);
        work_at(gate, worker, &mut margin, &mut two);
    }
    unreachable!()
}

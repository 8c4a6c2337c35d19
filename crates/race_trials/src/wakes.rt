//! Who sleeps is woken: each test ends only if that is so.

ghost use Rattle.std.specs.Prelude.{◌<◌};
ghost use Rattle.asp_model.specs.declared.limits.TheConstants.{MOST_SEATS};

use crate::crew::Work;
use crate::races::raced;
use crate::tasks::Tasks;
use crate::turns::{make_tasks, take_task, try_task};
use std::alloc::{AllocError, Global};
use std::process::Abort;
use std::sync::Wait;
use std::thread;
use std::thread::Threads;
use std::time::{Clock, Duration};
use turn_hub::{Hub, Seat};

// Seat 1 lets the others fall asleep before it gives.
fn a_while<C: Clock>(clock: &C) {
    thread::sleep(clock, Duration::from_millis(50));
}

// Seat 1 has the turn for a while, and the others want it meanwhile.
struct Held;

impl Work<Tasks> for Held {
    fn turns<R: Wait + Clock>(&self, rt: &R, hub: &Hub<Tasks>, seat: &mut Seat<Tasks>) {
        let number = seat.number();
        let mut tasks = hub.take(rt, seat);
        tasks.make(number);
        if number == 1 {
            a_while(rt);
        }
        hub.give(seat, tasks, false);
    }
}

// Seat 1 makes tasks after a while, and the others rest until there is one.
struct Idle;

impl Work<Tasks> for Idle {
    fn turns<R: Wait + Clock>(&self, rt: &R, hub: &Hub<Tasks>, seat: &mut Seat<Tasks>) {
        if seat.number() > 1 {
            return take_task(rt, hub, seat);
        }
        a_while(rt);
        make_tasks(rt, hub, seat, 3);
    }
}

// Seat 1 makes a task after a while. Seat 2 finds none before, and rests only afterwards.
struct Late;

impl Work<Tasks> for Late {
    fn turns<R: Wait + Clock>(&self, rt: &R, hub: &Hub<Tasks>, seat: &mut Seat<Tasks>) {
        if seat.number() == 1 {
            a_while(rt);
            return make_tasks(rt, hub, seat, 1);
        }
        if !try_task(rt, hub, seat) {
            a_while(rt);
            a_while(rt);
            hub.rest(rt, seat);
            take_task(rt, hub, seat);
        }
    }
}

// Each seat had so many turns that counted, from seat 0 on.
fn counts<W: Work<Tasks>, R: Abort + Threads + Wait + Clock + Sync>(
    rt: &R,
    alloc: Global,
    seats: u32,
    work: &W,
    turns: &[u64],
) -> Result<(), AllocError>
    requires { (0 < seats) × (seats < MOST_SEATS) }
{
    let tasks = raced(rt, alloc, seats, work)?;
    assert_eq!(rt; tasks.turns.as_slice(), turns);
    Ok(())
}

#[test]
fn seats_that_wait_for_the_turn_are_woken(rt: HostRuntime) -> Result<(), AllocError> {
    counts(&rt, rt.alloc(), 4, &Held, &[0, 1, 1, 1, 1])
}

#[test]
fn one_call_wakes_all_that_rest_one_after_another(rt: HostRuntime) -> Result<(), AllocError> {
    counts(&rt, rt.alloc(), 4, &Idle, &[0, 3, 1, 1, 1])
}

#[test]
fn a_call_before_the_rest_is_not_missed(rt: HostRuntime) -> Result<(), AllocError> {
    counts(&rt, rt.alloc(), 2, &Late, &[0, 1, 1])
}

//! Turns in which tasks are made or taken.

ghost use Rattle.race_trials.specs.Ready.{IsReady};

use crate::tasks::Tasks;
use std::sync::Wait;
use turn_hub::{Hub, Seat};

/// A turn that makes so many tasks, and counts as many times.
pub fn make_tasks<R: Wait>(rt: &R, hub: &Hub<Tasks>, seat: &mut Seat<Tasks>, count: u32)
    requires { IsReady hub.now 1 seat.old }
    ensures { IsReady hub.now 1 seat.new }
{
    let mut tasks = hub.take(rt, seat);
    for _ in 0..count {
        tasks.make(seat.number());
    }
    hub.give(seat, tasks, true);
}

/// A turn that takes a task, if there is one.
pub fn try_task<R: Wait>(rt: &R, hub: &Hub<Tasks>, seat: &mut Seat<Tasks>) -> bool
    requires { IsReady hub.now 1 seat.old }
    ensures { IsReady hub.now 1 seat.new }
{
    let mut tasks = hub.take(rt, seat);
    let found = tasks.try_take(seat.number());
    let more = tasks.left > 0;
    hub.give(seat, tasks, more);
    found
}

/// Rests until a task is taken.
pub fn take_task<R: Wait>(rt: &R, hub: &Hub<Tasks>, seat: &mut Seat<Tasks>)
    requires { IsReady hub.now 1 seat.old }
    ensures { IsReady hub.now 1 seat.new }
{
    for _ in rt.forever() {
        if try_task(rt, hub, seat) {
            return;
        }
        hub.rest(rt, seat);
    }
}

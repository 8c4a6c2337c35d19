//! Many turns of many seats, of which half make tasks and the others rest while there is none.

ghost use Rattle.std.specs.Prelude.{◌<◌};
ghost use Rattle.asp_model.specs.declared.limits.TheConstants.{MOST_SEATS};

use crate::crew::Work;
use crate::races::raced;
use crate::tasks::Tasks;
use crate::turns::{make_tasks, take_task};
use std::alloc::{AllocError, Global};
use std::sync::Wait;
use std::test::Fail;
use std::thread::Threads;
use std::time::Clock;
use turn_hub::{Hub, Seat};

const TURNS: u64 = 20_000;

// Seats with even numbers make tasks, and the others take them.
struct Stress;

impl Work<Tasks> for Stress {
    fn turns<R: Wait + Clock>(&self, rt: &R, hub: &Hub<Tasks>, seat: &mut Seat<Tasks>) {
        for _turn in 0..TURNS {
            if seat.number() % 2 == 0 {
                make_tasks(rt, hub, seat, 1);
            } else {
                take_task(rt, hub, seat);
            }
        }
    }
}

// Whether every turn of so many seats was counted once, and each task that was made was taken.
fn all_counted<R: Threads + Wait + Clock + Sync>(
    rt: &R,
    alloc: Global,
    seats: u32,
) -> Result<bool, AllocError>
    requires { (0 < seats) × (seats < MOST_SEATS) }
{
    let tasks = raced(rt, alloc, seats, &Stress)?;
    let counted = tasks.turns.iter().skip(1).all(|turns| *turns == TURNS);
    Ok(counted && tasks.left == 0)
}

#[test]
fn every_turn_of_two_seats_counts_once(rt: HostRuntime) -> Result<(), Fail> {
    assert!(rt; all_counted(&rt, rt.alloc(), 2)?);
    Ok(())
}

#[test]
fn every_turn_of_four_seats_counts_once(rt: HostRuntime) -> Result<(), Fail> {
    assert!(rt; all_counted(&rt, rt.alloc(), 4)?);
    Ok(())
}

#[test]
fn every_turn_of_sixteen_seats_counts_once(rt: HostRuntime) -> Result<(), Fail> {
    assert!(rt; all_counted(&rt, rt.alloc(), 16)?);
    Ok(())
}

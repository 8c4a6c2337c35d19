//! Races of seats that share tasks.

ghost use Rattle.std.specs.Prelude.{◌<◌};
ghost use Rattle.asp_model.specs.declared.limits.TheConstants.{MOST_SEATS};

use crate::crew::{Work, race};
use crate::tasks::Tasks;
use std::alloc::{AllocError, Global};
use std::sync::Wait;
use std::thread::Threads;
use std::time::Clock;

/// What so many seats leave, each with its work done. This alone calls `race`.
pub fn raced<W: Work<Tasks>, R: Threads + Wait + Clock + Sync>(
    rt: &R,
    alloc: Global,
    seats: u32,
    work: &W,
) -> Result<Tasks, AllocError>
    requires { (0 < seats) × (seats < MOST_SEATS) }
{
    race(rt, alloc, Tasks::new(alloc, seats + 1)?, seats, work)
}

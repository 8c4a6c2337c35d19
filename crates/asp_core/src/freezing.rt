//! A core that is stopped, taken apart, so that its run can be written down.

ghost use Rattle.std.specs.Prelude.{IfOk, OnOk, map};
ghost use Rattle.std.specs.Arc.{arc_value};
ghost use Rattle.std.specs.List.{AllZip};
ghost use Rattle.asp_model.specs.History.{HistoryShape};
ghost use Rattle.def_journals.specs.Journals.{RunShape};
ghost use Rattle.def_journals.specs.Passing.{holders_of};
ghost use Rattle.future_update.specs.Holders.{AreHomes, home_shape};
ghost use Rattle.core_seats.specs.Seats.{AreSeats, names_in, seats_in};
ghost use Rattle.asp_core.specs.Frozen.{
  AreSettledFrom,
  IsSomeStill,
  IsStill,
  KeepsEntry,
  StandsIn,
  first_of,
};
ghost use Rattle.asp_core.specs.Gathering.{AreApart, who_is_in};

use crate::gathering::gathered;
use asp_model::{ActivityName, FutureName};
use code_table::Code;
use core_seats::Seats;
use core_state::CoreState;
use future_table::FutureTable;
use request_queue::Request;
use std::alloc::{AllocError, Global};
use std::sync::Arc;
use step_activity::Actor;

/// What there is of a run that was stopped.
#[derive(Drop)]
pub struct Frozen {
    pub code: Arc<Code>,
    /// Each future with the activity that received its request, in the order of futures.
    pub homes: Vec<(FutureName, ActivityName)>,
    pub futures: FutureTable,
    /// In the order of creation. Each has gone on to its next redex, or to the place that its term
    /// is.
    pub activities: Vec<(ActivityName, Box<Actor>)>,
}

fn settle(entry: &mut (ActivityName, Box<Actor>)) -> Result<(), AllocError>
    ensures keeps { OnOk result (KeepsEntry entry.old entry.new) }
{
    entry.1.as_mut().settle()
}

/// Each activity goes on to its next redex, or to the place that its term is.
fn settle_all(activities: &mut [(ActivityName, Box<Actor>)]) -> Result<(), AllocError>
    ensures keeps { OnOk result (AllZip KeepsEntry activities.old activities.new) }
{
    for entry in activities.iter_mut() {
        settle(entry)?;
    }
    Ok(())
}

/// All activities that are in, in the order of their numbers, each settled.
fn settled(
    alloc: Global,
    seats: &mut Seats<Actor, Request>,
) -> Result<Vec<(ActivityName, Box<Actor>)>, AllocError>
    requires kept { AreSeats seats.old }
    requires apart { AreApart (names_in seats.old) }
    ensures settled { let all = who_is_in (names_in seats.old) (seats_in seats.old) in
        IfOk result (λ v. AreSettledFrom all v.items) }
{
    let mut activities = gathered(alloc, seats)?;
    settle_all(&mut activities)?;
    Ok(activities)
}

/// The parts of a core in which nobody is out, once its edges were asked for the homes.
pub(crate) fn taken_apart(
    code: Arc<Code>,
    homes: Vec<(FutureName, ActivityName)>,
    state: CoreState,
) -> Result<Frozen, AllocError>
    requires still { IsSomeStill state }
    ensures frozen { (h : HistoryShape) (s : RunShape) →
        IsStill h (arc_value code) state s →
        AreHomes (holders_of h).homes (map home_shape homes.items) →
        IfOk result (λ x. StandsIn x (first_of s)) }
{
    let CoreState {
        alloc,
        mut seats,
        ranks,
        futures,
        journal,
        left: _,
        bursts: _,
    } = state;
    drop(ranks);
    drop(journal);
    let activities = settled(alloc, &mut seats);
    drop(seats);
    match activities {
        Ok(activities) => Ok(Frozen {
            code,
            homes,
            futures,
            activities,
        }),
        Err(error) => {
            drop(code);
            drop(homes);
            drop(futures);
            Err(error)
        }
    }
}

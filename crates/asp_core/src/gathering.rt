//! What a run leaves.

ghost use Rattle.std.specs.Prelude.{◌≡◌, IfOk, List, OnOk, Some, length, map, slice_get};
ghost use Rattle.std.specs.BTreeMap.{get};
ghost use Rattle.asp_model.specs.History.{HistoryShape};
ghost use Rattle.asp_model.specs.Names.{Name, name_cmp};
ghost use Rattle.asp_model.specs.Outcome.{outcome_of};
ghost use Rattle.asp_model.specs.Shapes.{outcome_shape};
ghost use Rattle.def_journals.specs.Journals.{RunShape};
ghost use Rattle.def_paths.specs.Outcomes.{whole_outcome_of};
ghost use Rattle.code_table.specs.declared.code.Node.{Node as NodeShape};
ghost use Rattle.run_ends.specs.Ends.{IsEndOf};
ghost use Rattle.core_seats.specs.Seats.{AreSeats, IsKnown, names_in, seat_at, seats_in};
ghost use Rattle.core_state.specs.Cores.{IsCore};
ghost use Rattle.asp_core.specs.Gathering.{
  AreApart,
  AreBefore,
  IsBrought,
  OthersStay,
  as_actor,
  held_in,
  who_is_in,
};
ghost use Rattle.asp_core.specs.EndOfRun.{IsHome, IsSomeHome};

use asp_model::ActivityName;
use core_seats::Seats;
use core_state::CoreState;
use request_queue::Request;
use run_ends::RunEnd;
use std::alloc::{AllocError, Global};
use std::collections::BTreeMap;
use step_activity::Actor;
use step_ends::run_end_of;

/// Takes the activity of a number, with its name.
fn bring(
    alloc: Global,
    seats: &mut Seats<Actor, Request>,
    number: u32,
    activities: &mut Vec<(ActivityName, Box<Actor>)>,
) -> Result<(), AllocError>
    requires kept { AreSeats seats.old }
    requires known { IsKnown number seats.old }
    ensures brought { (n : Name) → slice_get (names_in seats.old) number ≡ Some n →
        let seat = seat_at seats.old number in
        OnOk result (IsBrought n seat activities.old.items activities.new.items) }
    ensures others { OthersStay number (seats_in seats.old) (seats_in seats.new) }
    ensures names { names_in seats.new ≡ names_in seats.old }
    ensures kept { AreSeats seats.new }
{
    let name = seats.name(number).copy(alloc)?;
    if let Some(actor) = seats.take(number) {
        activities.push((name, actor))?;
    }
    Ok(())
}

/// Takes all activities that are in, in the order of their numbers.
pub(crate) fn gathered(
    alloc: Global,
    seats: &mut Seats<Actor, Request>,
) -> Result<Vec<(ActivityName, Box<Actor>)>, AllocError>
    requires kept { AreSeats seats.old }
    requires apart { AreApart (names_in seats.old) }
    ensures all { let all = length (seats_in seats.old) in
        IfOk result (λ v. AreBefore (names_in seats.old) (seats_in seats.old) all (held_in v.items)) }
    ensures each { IfOk result
        (λ v. map as_actor v.items ≡ who_is_in (names_in seats.old) (seats_in seats.old)) }
{
    let count = seats.len() as u32;
    let mut activities = Vec::with_capacity(alloc, count as usize)?;
    for number in 0..count {
        bring(alloc, seats, number, &mut activities)?;
    }
    Ok(activities)
}

/// All activities that are in, by their names.
fn activities_of(
    alloc: Global,
    seats: &mut Seats<Actor, Request>,
) -> Result<BTreeMap<ActivityName, Box<Actor>>, AllocError>
    requires kept { AreSeats seats.old }
    requires apart { AreApart (names_in seats.old) }
    ensures all { let all = length (seats_in seats.old) in
        IfOk result (λ m. AreBefore (names_in seats.old) (seats_in seats.old) all (get name_cmp m)) }
{
    BTreeMap::from_iter(alloc, gathered(alloc, seats)?)
}

/// What a run leaves, once nobody is out: how each activity stands, its state, and the verdict.
pub fn end(state: CoreState) -> Result<RunEnd, AllocError>
    requires home { IsSomeHome state }
    ensures end { (h : HistoryShape) (code : List NodeShape) (s : RunShape) →
        IsHome h code state s → IfOk result (λ r. IsEndOf r (whole_outcome_of s.configuration)) }
    ensures outcome { (h : HistoryShape) (code : List NodeShape) (s : RunShape) →
        IsHome h code state s →
        IfOk result (λ r. outcome_shape r.outcome ≡ outcome_of s.configuration) }
{
    let CoreState {
        alloc,
        mut seats,
        ranks,
        futures,
        journal,
        left: _,
        bursts: _,
    } = state;
    drop(ranks);
    drop(journal);
    let activities = activities_of(alloc, &mut seats);
    drop(seats);
    match activities {
        Ok(activities) => run_end_of(alloc, activities, futures),
        Err(error) => {
            drop(futures);
            Err(error)
        }
    }
}

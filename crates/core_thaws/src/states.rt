//! The state of a core that goes on.

ghost use Rattle.std.specs.Prelude.{◌≡◌, [], IfOk, List, None, OnOk, length};
ghost use Rattle.asp_model.specs.History.{FirstShape};
ghost use Rattle.asp_model.specs.Term.{Tree};
ghost use Rattle.code_table.specs.declared.code.Node.{Node as NodeShape};
ghost use Rattle.def_journals.specs.Journals.{run_from};
ghost use Rattle.future_table.specs.Values.{values_of};
ghost use Rattle.step_reads.specs.Values.{AreClosedValues};
ghost use Rattle.step_activity.specs.Actors.{IsClosedFor};
ghost use Rattle.core_ranks.specs.Ranks.{IsRanked, Rests};
ghost use Rattle.core_seats.specs.Seats.{AreSeats, IsFound, names_in, seats_in};
ghost use Rattle.core_state.specs.Cores.{IsCore};
ghost use Rattle.core_thaws.specs.Seating.{AreSeated, IsSeatedBy};
ghost use Rattle.core_thaws.specs.Thawed.{MayGoOn, MayGoOnSomehow, resumed_history};

use asp_model::ActivityName;
use core_ranks::Ranks;
use core_seats::Seats;
use core_state::{CoreState, Journal, rank_of};
use future_table::FutureTable;
use std::alloc::{AllocError, Global};
use step_activity::Actor;

/// An activity gets the next seat, and its rank.
fn seat(state: &mut CoreState, name: ActivityName, actor: Box<Actor>) -> Result<(), AllocError>
    requires closed { IsClosedFor actor.value }
    requires values { AreClosedValues (values_of state.old.futures) }
    requires kept { AreSeats state.old.seats }
    requires new { IsFound (names_in state.old.seats) name None }
    requires rests { IsRanked state.old.ranks (length (seats_in state.old.seats)) Rests }
    ensures seated { OnOk result (IsSeatedBy name actor.value state.old state.new) }
{
    let rank = rank_of(state.alloc, actor.as_ref(), &state.futures)?;
    let number = state.seats.add(name, actor)?;
    state.ranks.rank(number, rank)?;
    Ok(())
}

/// All activities get their seats and their ranks, in this order.
fn seat_all(
    state: &mut CoreState,
    activities: Vec<(ActivityName, Box<Actor>)>,
) -> Result<(), AllocError>
    requires may { MayGoOnSomehow state.old.left activities.items state.old.futures }
    requires none { AreSeated state.old.futures state.old.left (length activities.items) [] state.old }
    ensures seated { let more = length activities.items in OnOk result
        (AreSeated state.old.futures state.old.left more activities.items state.new) }
{
    for (name, actor) in activities {
        seat(state, name, actor)?;
    }
    Ok(())
}

/// Nobody, with room in the journal for so many lends.
fn empty(
    alloc: Global,
    futures: FutureTable,
    budget: u64,
    most: usize,
) -> Result<CoreState, AllocError>
    ensures empty { IfOk result (AreSeated futures budget most []) }
{
    let mut journal = Journal::new(alloc);
    match journal.reserve(most) {
        Ok(()) => {
            let seats = Seats::new(alloc);
            let ranks = Ranks::new(alloc);
            Ok(CoreState {
                alloc,
                seats,
                ranks,
                futures,
                journal,
                left: budget,
                bursts: 0,
            })
        }
        Err(error) => {
            drop(journal);
            drop(futures);
            Err(error)
        }
    }
}

/// The state of a core that goes on with these activities, in the order of their creation, with
/// these values of futures, and with this budget. All are in, and nothing is entered.
pub fn thawed(
    alloc: Global,
    activities: Vec<(ActivityName, Box<Actor>)>,
    futures: FutureTable,
    budget: u64,
) -> Result<CoreState, AllocError>
    requires may { MayGoOnSomehow budget activities.items futures }
    ensures core { (code : List NodeShape) (program : Tree) (x : FirstShape) →
        MayGoOn code x budget activities.items futures →
        let history = resumed_history program x budget in
        IfOk result (λ s. IsCore history code s (run_from x budget)) }
{
    let most = activities.len();
    match empty(alloc, futures, budget, most) {
        Ok(mut state) => match seat_all(&mut state, activities) {
            Ok(()) => Ok(state),
            Err(error) => {
                drop(state);
                Err(error)
            }
        },
        Err(error) => {
            drop(activities);
            Err(error)
        }
    }
}

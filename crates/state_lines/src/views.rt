//! The states of activities at the end of a run, by their numbers.

ghost use Rattle.std.specs.Prelude.{◌≡◌, slice_get};
ghost use Rattle.asp_model.specs.Shapes.{status_shape};
ghost use Rattle.future_table.specs.Values.{values_of};
ghost use Rattle.def_paths.specs.Outcomes.{EndShape, WholeOutcome};
ghost use Rattle.run_ends.specs.Ends.{IsEndOf, IsSnapshotOf};
ghost use Rattle.state_lines.specs.Views.{IsSeen, IsSeenAs};

use crate::state::State;
use asp_model::Status;
use code_table::Code;
use future_table::FutureTable;
use run_ends::{EndState, RunEnd};

// What is read of an activity that ended with this status.
fn state_of<'a>(
    code: &'a Code,
    futures: &'a FutureTable,
    state: &'a EndState,
    status: &Status,
) -> State<'a>
    ensures state { (o : WholeOutcome) (e : EndShape) → values_of futures.now ≡ o.futures →
        IsSnapshotOf code.now state.now e.snapshot →
        status_shape status.now ≡ e.report.status → IsSeenAs o e result }
{
    State {
        code,
        machine: &state.machine,
        store: &state.store,
        futures,
        active: state.active,
        result: state.result(status),
    }
}

/// What is read of the activity with a number, in the order of names.
pub fn state_at(end: &RunEnd, number: usize) -> Option<State<'_>>
    // for what the end of the run stands for
    ensures state { (o : WholeOutcome) → IsEndOf end.now o →
        IsSeen o (slice_get o.ends number) result }
{
    if number >= end.outcome.activities.len() {
        return None;
    }
    let activity = &end.outcome.activities[number];
    let Some(state) = end.state(number) else {
        return None;
    };
    Some(state_of(&end.code, &end.futures, state, &activity.status))
}

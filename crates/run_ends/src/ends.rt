//! The end of a run with the states of its activities. Nothing of a state is copied or decoded.

ghost use Rattle.std.specs.Prelude.{◌≡◌, List, reverse, slice_get};
ghost use Rattle.std.specs.Option.{option_copied};
ghost use Rattle.asp_model.specs.Configuration.{ServiceShape};
ghost use Rattle.asp_model.specs.Intent.{Done};
ghost use Rattle.asp_model.specs.Shapes.{status_shape};
ghost use Rattle.asp_model.specs.Term.{Tree};
ghost use Rattle.code_table.specs.declared.code.Node.{Node as NodeShape};
ghost use Rattle.step_machine.specs.Standing.{Standing, view_of};
ghost use Rattle.def_paths.specs.Snapshots.{SnapshotShape, result_in};
ghost use Rattle.run_ends.specs.Ends.{IsSnapshotOf, none_waits};

use asp_model::{Outcome, Status};
use code_table::{Code, Place};
use future_table::FutureTable;
use object_store::Store;
use std::sync::Arc;
use step_machine::{Focus, Form, Frame, Machine};

/// The state of an activity at the end of a run.
pub struct EndState {
    /// Its term and its suspended services.
    pub machine: Machine,
    pub store: Store,
    /// Where its active object stands.
    pub active: Place,
}

// Written out, so that crates above drop it by one call.
impl Drop for EndState {
    fn drop(self) {
        let EndState {
            machine: _,
            store: _,
            active: _,
        } = self;
    }
}

/// The end of a run.
pub struct RunEnd {
    /// What a report without states says of it.
    pub outcome: Outcome,
    /// The states of its activities, in their order.
    pub states: Vec<EndState>,
    /// The filled futures.
    pub futures: FutureTable,
    /// The code that all its activities run.
    pub code: Arc<Code>,
}

// Written out, so that crates above drop it by one call.
impl Drop for RunEnd {
    fn drop(self) {
        let RunEnd {
            outcome: _,
            states: _,
            futures: _,
            code: _,
        } = self;
    }
}

// No frame waits for a term of the service that runs.
fn none_waits_in(frames: &[Frame]) -> bool
    ensures { result ≡ none_waits (reverse frames.now) }
{
    if frames.is_empty() {
        return true;
    }
    matches!(frames[frames.len() - 1].form, Form::Service)
}

// The place that the term of a machine is, where it is one.
fn place_in(machine: &Machine) -> Option<Place>
    ensures place { (k : List NodeShape) (t : Tree) (vs : List ServiceShape) →
        Standing k (view_of machine.now) t vs → result ≡ result_in Done t }
{
    match machine.focus {
        Focus::Place(place) => {
            if none_waits_in(&machine.frames) {
                Some(place)
            } else {
                None
            }
        }
        Focus::Node { .. } => None,
        Focus::Asked(_) => None,
        Focus::Calls { .. } => None,
        Focus::Called { .. } => None,
    }
}

impl RunEnd {
    /// The state of the activity with a number, in the order of names.
    pub fn state(&self, number: usize) -> Option<&EndState>
        ensures state { option_copied result ≡ slice_get self.now.states.items number }
    {
        self.states.get(number)
    }

    /// What a report without states says of it, where the rest is not needed any more.
    pub fn into_outcome(self) -> Outcome
        ensures outcome { result ≡ self.outcome }
    {
        let RunEnd {
            outcome,
            states: _,
            futures: _,
            code: _,
        } = self;
        outcome
    }
}

impl EndState {
    /// The place that its term is, where it is done.
    pub fn result(&self, status: &Status) -> Option<Place>
        ensures result { (k : List NodeShape) (s : SnapshotShape) → IsSnapshotOf k self.now s →
            result ≡ result_in (status_shape status.now) s.term }
    {
        match status {
            Status::Done => place_in(&self.machine),
            Status::Serving => None,
            Status::Running => None,
            Status::Awaits(_) => None,
            Status::Faulted(_) => None,
        }
    }
}

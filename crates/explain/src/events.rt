//! The events of a replay, in the order of its steps: who creates, sends, serves, answers, polls,
//! prints and stops at a fault.

ghost use Rattle.std.specs.Prelude.{◌≡◌, IfErr, IfOk};
ghost use Rattle.asp_model.specs.Outcome.{outcome_of};
ghost use Rattle.asp_model.specs.Replay.{Fits, replay as replay_of};
ghost use Rattle.asp_model.specs.Shapes.{counts_shape, lists_shape, outcome_shape, tree_of};
ghost use Rattle.replay_one.specs.Correct.{IsStop};
ghost use Rattle.replay_one.specs.Listed.{AreReplayable};
ghost use Rattle.explain.specs.EventRuns.{AreEventsOf};

use crate::events::listener::Listener;
use asp_check::Checked;
use asp_model::{Counts, Lists, Outcome};
use replay_one::{ReplayStop, replay_noting};
use std::alloc::Global;

mod event;
mod listener;
mod page;
mod places;
mod text;

pub use event::{RunEvent, What};
pub use page::Wish;
pub use text::{fault_text, tell_events};

/// What a replay leaves, and the events that were asked for.
#[derive(Drop)]
pub struct EventsRun {
    pub outcome: Outcome,
    pub events: Vec<RunEvent>,
    /// How many there are in all.
    pub all: u64,
}

impl EventsRun {
    /// It is not needed any more: who calls this need not prove its drop.
    pub fn discard(self) {
        drop(self);
    }
}

/// Replays a run of a program from its logs and its counts, and keeps the events that are asked
/// for, in the order of the steps of the replay. `are_replayable` tests what is asked of logs and
/// counts.
pub fn events_of(
    alloc: Global,
    program: &Checked,
    lists: &Lists,
    counts: &Counts,
    wish: Wish,
) -> Result<EventsRun, ReplayStop>
    requires replayable { AreReplayable (lists_shape lists.now) (counts_shape counts.now) }
    ensures fits { IfOk result (λ r. Fits (tree_of program.now.program.root)
        (lists_shape lists.now) (counts_shape counts.now)) }
    ensures outcome { let last = replay_of (tree_of program.now.program.root)
        (lists_shape lists.now) (counts_shape counts.now) in
        IfOk result (λ r. outcome_shape r.outcome ≡ outcome_of last) }
    ensures events { IfOk result (AreEventsOf (tree_of program.now.program.root)
        (lists_shape lists.now) (counts_shape counts.now) wish) }
    ensures diverged { IfErr result (IsStop (tree_of program.now.program.root)
        (lists_shape lists.now) (counts_shape counts.now)) }
{
    let mut listener = Listener::new(alloc, wish);
    let end = replay_noting(alloc, program, lists, counts, &mut listener)?;
    let outcome = end.into_outcome();
    Ok(EventsRun {
        outcome,
        events: listener.page.events,
        all: listener.page.all,
    })
}

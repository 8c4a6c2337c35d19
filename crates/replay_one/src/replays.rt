//! The replay of a run from its logs and its counts.

ghost use Rattle.std.specs.Prelude.{◌≡◌, ◌≤◌, ◌++◌, IfErr, IfOk, List, OnOk};
ghost use Rattle.asp_model.specs.declared.limits.TheConstants.{MOST_REDUCTIONS};
ghost use Rattle.asp_model.specs.Outcome.{outcome_of};
ghost use Rattle.asp_model.specs.Replay.{Fits, replay as replay_of, total};
ghost use Rattle.asp_model.specs.Shapes.{counts_shape, lists_shape, outcome_shape, tree_of};
ghost use Rattle.def_paths.specs.Outcomes.{whole_outcome_of};
ghost use Rattle.run_ends.specs.Ends.{IsEndOf};
ghost use Rattle.replay_one.specs.declared.replays.ReplayStop.TheVariants.{Memory};
ghost use Rattle.replay_one.specs.Correct.{IsStop};
ghost use Rattle.replay_one.specs.Listed.{AreReplayable};
ghost use Rattle.replay_parts.specs.Listening.{AreToldPlaces};
ghost use Rattle.replay_parts.specs.Notes.{NoteShape, replay_notes};

use crate::run::run_within;
use asp_check::Checked;
use asp_model::{ActivityName, Counts, Lists};
use replay_parts::{Bounds, NoNotes, Notes, first_difference};
use run_ends::RunEnd;
use std::alloc::{AllocError, Global};

/// Why a replay gives no outcome.
#[derive(Debug, Drop)]
pub enum ReplayStop {
    /// It leaves something else of this activity than the logs and counts say, and of none with a
    /// lesser name.
    Diverged { activity: ActivityName },
    Memory,
}

impl From<AllocError> for ReplayStop {
    ghost from_gives = { λ _ s. s ≡ Memory };

    fn from(_error: AllocError) -> ReplayStop {
        ReplayStop::Memory
    }
}

/// The sum of the counts.
fn sum_of(counts: &[(ActivityName, u64)]) -> u64
    requires within { total counts.now ≤ MOST_REDUCTIONS }
    ensures { result ≡ total counts.now }
{
    let mut sum = 0;
    for count in counts {
        sum += count.1;
    }
    sum
}

/// Replays a run of a program from its logs and its counts. `are_replayable` tests what is
/// asked of them.
pub fn replay(
    alloc: Global,
    program: &Checked,
    lists: &Lists,
    counts: &Counts,
) -> Result<RunEnd, ReplayStop>
    requires replayable { AreReplayable (lists_shape lists.now) (counts_shape counts.now) }
    ensures fits { IfOk result (λ r. Fits (tree_of program.now.program.root)
        (lists_shape lists.now) (counts_shape counts.now)) }
    // With the state of each activity, and the filled futures.
    ensures end { let last = replay_of (tree_of program.now.program.root)
        (lists_shape lists.now) (counts_shape counts.now) in
        IfOk result (λ r. IsEndOf r (whole_outcome_of last)) }
    ensures outcome { let last = replay_of (tree_of program.now.program.root)
        (lists_shape lists.now) (counts_shape counts.now) in
        IfOk result (λ r. outcome_shape r.outcome ≡ outcome_of last) }
    ensures diverged { IfErr result (IsStop (tree_of program.now.program.root)
        (lists_shape lists.now) (counts_shape counts.now)) }
{
    replay_noting(alloc, program, lists, counts, &mut NoNotes)
}

/// Replays a run of a program from its logs and its counts, while somebody listens.
/// `are_replayable` tests what is asked of them.
pub fn replay_noting<N: Notes>(
    alloc: Global,
    program: &Checked,
    lists: &Lists,
    counts: &Counts,
    notes: &mut N,
) -> Result<RunEnd, ReplayStop>
    requires replayable { AreReplayable (lists_shape lists.now) (counts_shape counts.now) }
    ensures fits { IfOk result (λ r. Fits (tree_of program.now.program.root)
        (lists_shape lists.now) (counts_shape counts.now)) }
    // With the state of each activity, and the filled futures.
    ensures end { let last = replay_of (tree_of program.now.program.root)
        (lists_shape lists.now) (counts_shape counts.now) in
        IfOk result (λ r. IsEndOf r (whole_outcome_of last)) }
    ensures outcome { let last = replay_of (tree_of program.now.program.root)
        (lists_shape lists.now) (counts_shape counts.now) in
        IfOk result (λ r. outcome_shape r.outcome ≡ outcome_of last) }
    // What the steps of the replay note, and then where its activities stand.
    ensures told { (xs : List NoteShape) → N.tells notes.old xs →
        let all = lists_shape lists.now in let some = counts_shape counts.now in
        let noted = replay_notes (tree_of program.now.program.root) all some in
        let last = replay_of (tree_of program.now.program.root) all some in
        OnOk result (AreToldPlaces (N.tells notes.new) (xs ++ noted) last) }
    ensures diverged { IfErr result (IsStop (tree_of program.now.program.root)
        (lists_shape lists.now) (counts_shape counts.now)) }
{
    let bounds = Bounds::Listed(lists, counts);
    let sum = sum_of(&counts.entries);
    let end = run_within(alloc, program, &bounds, sum, notes)?;
    match first_difference(&end.outcome.activities, &lists.entries, &counts.entries) {
        None => Ok(end),
        Some(name) => Err(ReplayStop::Diverged {
            activity: name.copy(alloc)?,
        }),
    }
}

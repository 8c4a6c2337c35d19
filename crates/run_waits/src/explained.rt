//! The end of a replay, and what waits at it lead to.

ghost use Rattle.std.specs.Prelude.{◌≡◌, IfErr, IfOk, Some, length, slice_get};
ghost use Rattle.asp_model.specs.Configuration.{Configuration};
ghost use Rattle.asp_model.specs.Names.{Name};
ghost use Rattle.asp_model.specs.Outcome.{outcome_of};
ghost use Rattle.asp_model.specs.Replay.{Fits, replay as replay_of};
ghost use Rattle.asp_model.specs.Shapes.{counts_shape, lists_shape, outcome_shape, tree_of};
ghost use Rattle.asp_model.specs.Status.{IsStuck};
ghost use Rattle.replay_one.specs.Correct.{IsStop};
ghost use Rattle.replay_one.specs.Listed.{AreReplayable};
ghost use Rattle.replay_parts.specs.Notes.{replay_notes};
ghost use Rattle.wait_circles.specs.Ways.{AreCircles, AreEnds};
ghost use Rattle.wait_circles.specs.Whys.{AreWaits, IsToldWhy, names_of};
ghost use Rattle.run_waits.specs.Books.{KeepsBooks};
ghost use Rattle.run_waits.specs.Explains.{IsEndTold, IsExplained};

use crate::books::Books;
use crate::kept::Kept;
use crate::receipts::Receipts;
use crate::waits::waits_in;
use asp_check::Checked;
use asp_model::{Counts, Lists};
use replay_one::{ReplayStop, replay_noting};
use run_ends::RunEnd;
use std::alloc::{AllocError, Global};
use wait_circles::{End, Ways, Why, ways_of, why_of};

/// The end of a replay. Activities are told by their numbers in the outcome.
#[derive(Drop)]
pub struct Explained {
    pub end: RunEnd,
    pub receipts: Receipts,
    /// What each activity has of the requests that came to it.
    pub books: Books,
    /// Whom each activity waits for.
    pub next: Vec<Option<usize>>,
    /// Where these waits lead.
    pub ways: Ways,
}

/// Replays a run of a program from its logs and its counts, and finds what its waits lead to.
/// `are_replayable` tests what is asked of them.
pub fn explain_run(
    alloc: Global,
    program: &Checked,
    lists: &Lists,
    counts: &Counts,
) -> Result<Explained, ReplayStop>
    requires replayable { AreReplayable (lists_shape lists.now) (counts_shape counts.now) }
    ensures fits { IfOk result (λ x. Fits (tree_of program.now.program.root)
        (lists_shape lists.now) (counts_shape counts.now)) }
    ensures outcome { let last = replay_of (tree_of program.now.program.root)
        (lists_shape lists.now) (counts_shape counts.now) in
        IfOk result (λ x. outcome_shape x.end.outcome ≡ outcome_of last) }
    ensures explained { let last = replay_of (tree_of program.now.program.root)
        (lists_shape lists.now) (counts_shape counts.now) in
        IfOk result (IsExplained last) }
    ensures books { let noted = replay_notes (tree_of program.now.program.root)
        (lists_shape lists.now) (counts_shape counts.now) in
        IfOk result (λ x. KeepsBooks x.books noted) }
    ensures diverged { IfErr result (IsStop (tree_of program.now.program.root)
        (lists_shape lists.now) (counts_shape counts.now)) }
{
    let mut kept = Kept::new(alloc);
    let end = replay_noting(alloc, program, lists, counts, &mut kept)?;
    let Kept { receipts, books } = kept;
    match leads_in(alloc, &end, &receipts) {
        Ok(Leads { next, ways }) => Ok(Explained {
            end,
            receipts,
            books,
            next,
            ways,
        }),
        Err(error) => Err(ReplayStop::from(error)),
    }
}

// Whom each waits for, and where these waits lead.
struct Leads {
    next: Vec<Option<usize>>,
    ways: Ways,
}

fn leads_in(alloc: Global, end: &RunEnd, receipts: &Receipts) -> Result<Leads, AllocError>
    ensures size { let activities = end.now.outcome.activities.items in
        IfOk result (λ l. length l.next.items ≡ length activities) }
    ensures waits { let activities = end.now.outcome.activities.items in (c : Configuration) →
        IsEndTold c activities end.now.futures receipts.now →
        IfOk result (λ l. AreWaits c l.next.items (names_of activities)) }
    ensures circles { IfOk result (λ l. AreCircles l.next.items l.ways.circles.items) }
    ensures ends { IfOk result
        (λ l. AreEnds l.next.items l.ways.circles.items l.ways.ends.items) }
{
    let next = waits_in(alloc, &end.outcome.activities, &end.futures, receipts)?;
    let ways = ways_of(alloc, &next)?;
    Ok(Leads { next, ways })
}

fn end_at(ends: &[End], number: usize) -> Option<End>
    ensures { result ≡ slice_get ends.now number }
{
    match ends.get(number) {
        Some(end) => Some(*end),
        None => None,
    }
}

impl Explained {
    /// It is not needed any more: who calls this need not prove its drop.
    pub fn discard(self) {
        let Explained {
            end: _,
            receipts: _,
            books: _,
            next: _,
            ways: _,
        } = self;
    }

    /// Why an activity rests, by its number. In a run in which nobody can go on, the cause is told
    /// of every activity, and holds.
    pub fn why(&self, number: usize) -> Option<Why>
        ensures { (c : Configuration) (n : Name) → IsExplained c self.now → IsStuck c →
            let names = names_of self.now.end.outcome.activities.items in
            slice_get names number ≡ Some n →
            IsToldWhy c names self.now.ways.circles.items n result }
    {
        match end_at(&self.ways.ends, number) {
            Some(end) => why_of(&self.end.outcome.activities, end),
            None => None,
        }
    }
}

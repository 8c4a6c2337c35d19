//! A run that is cut back to an earlier point.

ghost use Rattle.std.specs.Prelude.{◌≡◌, ℕ, IfErr, IfOk, Some};
ghost use Rattle.asp_model.specs.Names.{Name};
ghost use Rattle.asp_model.specs.Outcome.{counts_in, lists_in};
ghost use Rattle.asp_model.specs.Replay.{replay as replay_of};
ghost use Rattle.asp_model.specs.Shapes.{counts_shape, lists_shape, outcome_shape, tree_of};
ghost use Rattle.def_journals.specs.Journals.{number_of};
ghost use Rattle.def_paths.specs.Outcomes.{whole_outcome_of};
ghost use Rattle.run_ends.specs.Ends.{IsEndOf};
ghost use Rattle.replay_one.specs.Listed.{AreReplayable};
ghost use Rattle.run_waits.specs.declared.cuts.CutStop.TheVariants.{Memory};
ghost use Rattle.replay_parts.specs.Roster.{IsRoster, Leads};
ghost use Rattle.run_waits.specs.Entries.{names_in};
ghost use Rattle.run_waits.specs.Searches.{IsStart};
ghost use Rattle.run_waits.specs.Cuts.{IsCutBack, IsCutStop, IsStopOf};

use crate::cuts::search::population_at;
use crate::receipts::Receipts;
use asp_check::Checked;
use asp_model::{ActivityName, Counts, Lists};
use code_compiler::compile;
use replay_one::{Bounds, ReplayStop, replay_noting};
use replay_population::{Population, Roster};
use run_ends::RunEnd;
use std::alloc::{AllocError, Global};
use std::sync::Arc;

mod entries;
mod reports;
mod search;
mod turns;

pub use reports::{CutReportStop, cut_report};

/// Why a run is not cut back.
#[derive(Drop)]
pub enum CutStop {
    /// The replay leaves something else of this activity than the logs and counts say, and of none
    /// with a lesser name.
    Diverged { activity: ActivityName },
    /// There is no such activity, or it has made fewer reductions.
    Beyond,
    Memory,
}

impl From<AllocError> for CutStop {
    ghost from_gives = { λ _ s. s ≡ Memory };

    fn from(_error: AllocError) -> CutStop {
        CutStop::Memory
    }
}

fn stop_of(stop: ReplayStop) -> CutStop
    ensures { IsStopOf stop result }
{
    match stop {
        ReplayStop::Diverged { activity } => CutStop::Diverged { activity },
        ReplayStop::Memory => CutStop::Memory,
    }
}

/// The run that logs and counts show, cut back to the least point at which an activity has made so
/// many reductions. `are_replayable` tests what is asked of them.
pub fn cut_back(
    alloc: Global,
    program: &Checked,
    lists: &Lists,
    counts: &Counts,
    name: &ActivityName,
    count: u64,
) -> Result<RunEnd, CutStop>
    requires replayable { AreReplayable (lists_shape lists.now) (counts_shape counts.now) }
    ensures cut { let all = lists_shape lists.now in let some = counts_shape counts.now in
        IfOk result (λ r. IsCutBack (tree_of program.now.program.root)
        all some name.now count (outcome_shape r.outcome)) }
    // With the state of each activity, and the filled futures.
    ensures end { IfOk result (λ r. let o = outcome_shape r.outcome in
        let last = replay_of (tree_of program.now.program.root) (lists_in o) (counts_in o) in
        IsEndOf r (whole_outcome_of last)) }
    ensures stop { let all = lists_shape lists.now in let some = counts_shape counts.now in
        IfErr result (IsCutStop (tree_of program.now.program.root) all some name.now count) }
{
    let mut receipts = Receipts::new(alloc);
    match replay_noting(alloc, program, lists, counts, &mut receipts) {
        Ok(end) => drop(end),
        Err(stop) => return Err(stop_of(stop)),
    }
    let bounds = Bounds::Listed(lists, counts);
    let roster = bounds.roster(alloc)?;
    let Some(number) = roster.number(name) else {
        return Err(CutStop::Beyond);
    };
    if bounds.count(number) < count {
        return Err(CutStop::Beyond);
    }
    let start = start(alloc, program, roster)?;
    let cut = population_at(alloc, start, lists, counts, &receipts, number, count)?;
    let end = cut.end(alloc)?;
    Ok(end)
}

/// The start of a program, where these names have numbers.
fn start(alloc: Global, program: &Checked, roster: Roster) -> Result<Population, AllocError>
    requires sound { IsRoster roster }
    ensures start { (lists : Lists) (n : Name) (number : ℕ) → Leads (names_in lists) roster →
        number_of n roster ≡ Some number →
        IfOk result (IsStart (tree_of program.now.program.root) lists n number) }
{
    let code = Arc::new(alloc, compile(alloc, program)?)?;
    let (population, _) = Population::start(alloc, code, roster)?;
    Ok(population)
}

//! A trace is checked.

ghost use Rattle.std.specs.Prelude.{[], ℕ, IfErr, IfOk, List, map};
ghost use Rattle.asp_model.specs.History.{EntryShape};
ghost use Rattle.asp_model.specs.Shapes.{entry_shape, tree_of};
ghost use Rattle.asp_model.specs.Term.{Tree};
ghost use Rattle.def_journals.specs.Journals.{RunShape, begun};
ghost use Rattle.journal_runs.specs.Runs.{IsRunOf, IsSomeRun};
ghost use Rattle.trace_check.specs.Checks.{AreRedone, IsCheckedEnd, IsStop};

use crate::error::TraceStop;
use asp_check::Checked;
use asp_model::Entry;
use journal_runs::{JournalRun, Standing};
use run_ends::RunEnd;
use std::alloc::{AllocError, Global};

/// What the run of these entries leaves, which are a lawful journal of the program from the budget.
pub fn check_trace(
    alloc: Global,
    program: &Checked,
    budget: u64,
    entries: &[Entry],
) -> Result<RunEnd, TraceStop>
    ensures checked { let term = tree_of program.now.program.root in
        IfOk result (IsCheckedEnd term budget (map entry_shape entries.now)) }
    ensures stop { let term = tree_of program.now.program.root in
        IfErr result (IsStop term budget (map entry_shape entries.now)) }
{
    let mut run = JournalRun::begin(alloc, program, budget)?;
    let refused = redo_all(alloc, &mut run, entries)?;
    match refused {
        Some(entry) => Err(TraceStop::Unlawful { entry }),
        None => finish(alloc, run),
    }
}

/// Redoes all entries. The number, from 1, of the first that cannot be redone.
fn redo_all(
    alloc: Global,
    run: &mut JournalRun,
    entries: &[Entry],
) -> Result<Option<u64>, AllocError>
    requires begun { (program : Tree) × (budget : ℕ)
        × IsRunOf run.old program budget [] (begun program budget) }
    ensures redone { (program : Tree) (budget : ℕ) →
        IsRunOf run.old program budget [] (begun program budget) →
        IfOk result (AreRedone run.new program budget (map entry_shape entries.now)) }
{
    for number in 0..entries.len() {
        let goes = run.redo(alloc, &entries[number])?;
        if !goes {
            return Ok(Some(number as u64 + 1));
        }
    }
    Ok(None)
}

/// What a run leaves that has ended.
fn finish(alloc: Global, run: JournalRun) -> Result<RunEnd, TraceStop>
    requires run { IsSomeRun run }
    ensures checked { (program : Tree) (budget : ℕ) (entries : List EntryShape) (s : RunShape) →
        IsRunOf run program budget entries s →
        IfOk result (IsCheckedEnd program budget entries) }
    ensures stop { (program : Tree) (budget : ℕ) (entries : List EntryShape) (s : RunShape) →
        IsRunOf run program budget entries s → IfErr result (IsStop program budget entries) }
{
    let mut run = run;
    let standing = run.standing(alloc)?;
    match standing {
        Standing::Ended => Ok(run.end(alloc)?),
        Standing::Out(_) => Err(TraceStop::Unfinished),
        Standing::Unfinished => Err(TraceStop::Unfinished),
    }
}

//! The ends that are told: those that a search finds, or given ones.

ghost use Rattle.std.specs.Prelude.{◌≡◌, IfOk, map, true, false};
ghost use Rattle.asp_model.specs.Shapes.{tree_of};
ghost use Rattle.outcome_search.specs.Ends.{AreReplayableEnds, run_logs};
ghost use Rattle.outcome_search.specs.Found.{IfComplete};
ghost use Rattle.outcome_search.specs.declared.runs.Stop.TheVariants as endings;
ghost use Rattle.outcomes_top.specs.Correct.{AreInOrders};
ghost use Rattle.outcomes_top.specs.Families.{AreAll, IsFamily};
ghost use Rattle.outcomes_top.specs.Surveys.{AreChosen, IsFamilyOf};
ghost use Rattle.outcomes_words.specs.Shapes.{task_shape};
ghost use Rattle.outcomes_words.specs.Words.{IsWithin};
ghost use Rattle.replay_offers.specs.Programs.{tree_in};

use crate::told::ToldRuns;
use asp_check::Checked;
use end_search::ProgressBox;
use outcome_search::{EndedRun, Found, Stop, all_ends, check_ends};
use outcomes_words::Task;
use replay_classes::ends_by_classes;
use replay_offers::Replays;
use std::alloc::{AllocError, Global};

/// The ends of a program, and whether they are all: by classes of labels, or by whole orders.
#[derive(Drop)]
pub struct Family {
    pub runs: Replays,
    pub by_classes: bool,
    pub whole: bool,
    pub ends: Vec<EndedRun>,
}

// Whether a search found all.
fn is_whole(stop: &Stop) -> bool
    ensures whole { result ≡ true → stop.now ≡ endings.Complete }
{
    match stop {
        Stop::Complete => true,
        Stop::Most | Stop::Unended(_) => false,
    }
}

/// The ends that are told: those given, or those that a search finds.
pub fn family_of(
    alloc: Global,
    program: &Checked,
    task: &Task<'_>,
    given: Vec<EndedRun>,
    progress: &ProgressBox,
) -> Result<Family, AllocError>
    requires within { IsWithin (task_shape task.now) }
    requires given { let tree = tree_of program.now.program.root in
        AreReplayableEnds tree (map run_logs given.items) }
    ensures tree { IfOk result (λ f. tree_in f.runs ≡ tree_of program.now.program.root) }
    ensures ends { IfOk result
        (λ f. AreReplayableEnds (tree_in f.runs) (map run_logs f.ends.items)) }
    ensures family { IfOk result
        (λ f. IsFamily (tree_in f.runs) f.by_classes f.whole (map run_logs f.ends.items)) }
    ensures orders { IfOk result (λ f. AreInOrders (task_shape task.now) f.by_classes) }
    ensures chosen { let given = map run_logs given.items in IfOk result
        (λ f. AreChosen (task_shape task.now).given given (map run_logs f.ends.items)) }
{
    let runs = Replays::new(alloc, program, task.budget)?;
    if task.given.is_empty() {
        sought(alloc, program, task, runs, progress)
    } else {
        checked(alloc, runs, given, progress)
    }
}

// The ends that a search finds: by classes of labels, unless whole orders are asked for or nothing
// is told by classes.
fn sought(
    alloc: Global,
    program: &Checked,
    task: &Task<'_>,
    runs: Replays,
    progress: &ProgressBox,
) -> Result<Family, AllocError>
    requires runs { tree_in runs ≡ tree_of program.now.program.root }
    ensures family { IfOk result (IsFamilyOf (tree_of program.now.program.root)) }
    ensures orders { IfOk result (λ f. task.now.whole_orders ≡ true → f.by_classes ≡ false) }
{
    let most = task.most as usize;
    if task.whole_orders {
        return in_orders(alloc, runs, most, progress);
    }
    let told = ends_by_classes(alloc, program, task.budget, most, progress)?;
    match told {
        Some(found) => Ok(in_classes(runs, found)),
        None => in_orders(alloc, runs, most, progress),
    }
}

// The ends that were found by classes of labels.
fn in_classes(runs: Replays, found: Found) -> Family
    requires found { AreReplayableEnds (tree_in runs) (map run_logs found.ends.items) }
    requires complete { IfComplete
        (AreAll true (tree_in runs) (map run_logs found.ends.items)) found.stop }
    ensures family { IsFamilyOf (tree_in runs) result }
{
    Family {
        runs,
        by_classes: true,
        whole: is_whole(&found.stop),
        ends: found.ends,
    }
}

// The ends by whole orders that a search finds.
fn in_orders(
    alloc: Global,
    runs: Replays,
    most: usize,
    progress: &ProgressBox,
) -> Result<Family, AllocError>
    ensures family { IfOk result (IsFamilyOf (tree_in runs)) }
    ensures orders { IfOk result (λ f. f.by_classes ≡ false) }
{
    let mut told = ToldRuns {
        runs: &runs,
        progress,
    };
    let found = all_ends(alloc, &mut told, most)?;
    Ok(Family {
        runs,
        by_classes: false,
        whole: is_whole(&found.stop),
        ends: found.ends,
    })
}

// Given ends, and whether they are all by whole orders.
fn checked(
    alloc: Global,
    runs: Replays,
    given: Vec<EndedRun>,
    progress: &ProgressBox,
) -> Result<Family, AllocError>
    requires given { AreReplayableEnds (tree_in runs) (map run_logs given.items) }
    ensures family { IfOk result (IsFamilyOf (tree_in runs)) }
    ensures orders { IfOk result (λ f. f.by_classes ≡ false) }
    ensures same { IfOk result (λ f. map run_logs f.ends.items ≡ map run_logs given.items) }
{
    let mut told = ToldRuns {
        runs: &runs,
        progress,
    };
    let found = check_ends(alloc, &mut told, given)?;
    Ok(Family {
        runs,
        by_classes: false,
        whole: is_whole(&found.stop),
        ends: found.ends,
    })
}

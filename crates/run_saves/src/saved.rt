//! A run that is saved.

ghost use Rattle.std.specs.Prelude.{◌<◌, ◌≡◌, ◌≤◌, IfOk, Some, map, string_bytes};
ghost use Rattle.std.specs.Arc.{arc_value};
ghost use Rattle.std.specs.List.{concat};
ghost use Rattle.std.specs.Option.{option_map};
ghost use Rattle.asp_model.specs.History.{FirstShape};
ghost use Rattle.asp_model.specs.Shapes.{marked_of, tree_of, verdict_shape};
ghost use Rattle.asp_model.specs.declared.limits.TheConstants.{MOST_REDUCTIONS, MOST_WORKERS};
ghost use Rattle.def_journals.specs.Journals.{RunShape};
ghost use Rattle.law_frozen.specs.Frozen.{frozen_of};
ghost use Rattle.checkpoint_text.specs.Lines.{checkpoint_text};
ghost use Rattle.checkpoint_runs.specs.Saved.{program_text};
ghost use Rattle.core_state.specs.Cores.{program_of};
ghost use Rattle.asp_core.specs.Calls.{verdict_of};
ghost use Rattle.asp_core.specs.Cores.{IsRun, history_of};
ghost use Rattle.asp_core.specs.Over.{IsOver};
ghost use Rattle.asp_core.specs.Thawing.{BeginsIn};
ghost use Rattle.run_saves.specs.Saved.{IsLeftAt, IsLeftSince, IsSavedRun, is_budget as is_budget_told};

use asp_check::Checked;
use asp_core::{Core, First, Frozen};
use asp_model::Verdict;
use checkpoint_runs::write_checkpoint;
use code_reading::DecodeError;
use run_ends::RunEnd;
use run_resumes::resume_core;
use std::alloc::Global;
use std::sync::Wait;
use std::thread::Threads;
use update_policy::{Policies, UpdatePolicy};
use worker_pool::{Gate, Settings, run_core};

/// What is left of a run.
#[derive(Drop)]
pub enum Saved {
    /// Its budget ran out: the text of its checkpoint, in pieces.
    Stopped(Vec<String>),
    /// It ended in another way, with this end.
    Ended(RunEnd),
}

/// Runs a program by so many workers, until its verdict is there, and writes the checkpoint where
/// the budget ran out. The policies are dropped when the run ends.
pub fn run_saved<R: Threads + Wait + Sync, P: UpdatePolicy + Send + Drop, G: Gate>(
    rt: &R,
    alloc: Global,
    program: &Checked,
    settings: Settings,
    policies: Policies<P>,
    gate: &G,
) -> Result<Saved, DecodeError>
    requires workers { (0 < settings.workers) × (settings.workers ≤ MOST_WORKERS) }
    requires within { settings.budget ≤ MOST_REDUCTIONS }
    ensures saved { let term = marked_of program.now.program.root in
        IfOk result (IsSavedRun term settings.budget) }
{
    let core = Core::new(alloc, program, settings.budget, settings.plan, policies)?;
    let core = run_core(rt, alloc, core, settings.workers, gate)?;
    left_of(alloc, program, core)
}

/// Goes on where a core was taken apart, or a checkpoint was read, and writes the checkpoint where
/// the budget ran out.
pub fn run_saved_again<R: Threads + Wait + Sync, P: UpdatePolicy + Send + Drop, G: Gate>(
    rt: &R,
    alloc: Global,
    program: &Checked,
    frozen: Frozen,
    first: First,
    settings: Settings,
    policies: Policies<P>,
    gate: &G,
) -> Result<Saved, DecodeError>
    requires workers { (0 < settings.workers) × (settings.workers ≤ MOST_WORKERS) }
    requires first { BeginsIn frozen first settings.budget }
    requires program { program_of (arc_value frozen.code) ≡ tree_of program.now.program.root }
    ensures saved { let term = marked_of program.now.program.root in
        (x : FirstShape) → first.shape ≡ Some x →
        IfOk result (IsLeftSince term x settings.budget) }
{
    let core = resume_core(rt, alloc, frozen, first, settings, policies, gate)?;
    left_of(alloc, program, core)
}

// What is left of a core whose verdict is there.
fn left_of<P: UpdatePolicy + Drop>(
    alloc: Global,
    program: &Checked,
    core: Core<P>,
) -> Result<Saved, DecodeError>
    requires over { IsOver core }
    ensures left { IfOk result (IsLeftAt (history_of core) (marked_of program.now.program.root)) }
{
    if is_stopped(&core) {
        let pieces = stopped(alloc, program, core)?;
        return Ok(Saved::Stopped(pieces));
    }
    let end = core.outcome()?;
    Ok(Saved::Ended(end))
}

// Whether the budget ran out.
fn is_stopped<P: UpdatePolicy + Drop>(core: &Core<P>) -> bool
    requires over { IsOver core.now }
    ensures stopped { (s : RunShape) → IsRun core.now s →
        result ≡ is_budget_told (verdict_of core.now s) }
{
    is_budget(core.verdict())
}

fn is_budget(verdict: Option<Verdict>) -> bool
    ensures { result ≡ is_budget_told (option_map verdict_shape verdict) }
{
    matches!(verdict, Some(Verdict::Budget))
}

// The checkpoint of a core whose verdict is there.
fn stopped<P: UpdatePolicy + Drop>(
    alloc: Global,
    program: &Checked,
    core: Core<P>,
) -> Result<Vec<String>, DecodeError>
    requires over { IsOver core }
    ensures text { let program = program_text (marked_of program.now.program.root) in
        (s : RunShape) → IsRun core s →
        let saved = checkpoint_text program (frozen_of s.names s.configuration) in
        IfOk result (λ v. concat (map string_bytes v.items) ≡ saved) }
{
    let frozen = core.freeze()?;
    write_checkpoint(alloc, program.program(), frozen)
}

//! A run that goes on.

ghost use Rattle.std.specs.Prelude.{◌≡◌, ◌<◌, ◌≤◌, [], IfOk, Some};
ghost use Rattle.std.specs.Arc.{arc_value};
ghost use Rattle.asp_model.specs.History.{FirstShape};
ghost use Rattle.asp_model.specs.Term.{locations};
ghost use Rattle.asp_model.specs.declared.limits.TheConstants.{MOST_WORKERS};
ghost use Rattle.core_state.specs.Cores.{program_of};
ghost use Rattle.law_frozen.specs.Frozen.{thawed_first};
ghost use Rattle.law_checkpoints.specs.Saved.{IsSavedAt, frozen_at};
ghost use Rattle.asp_core.specs.Cores.{entries_of, history_of};
ghost use Rattle.asp_core.specs.Over.{IsOver};
ghost use Rattle.asp_core.specs.Thawing.{BeginsIn};
ghost use Rattle.run_resumes.specs.Resumed.{IsEndOfOneRun, IsResumedEnd, history_since};

use asp_core::{Core, First, Frozen, end_of_run};
use run_ends::RunEnd;
use std::alloc::{AllocError, Global};
use std::sync::Wait;
use std::thread::Threads;
use update_policy::{Policies, UpdatePolicy};
use worker_pool::{Gate, Settings, run_core};

/// Goes on where a core was taken apart, or a checkpoint was read, by so many workers, until the
/// verdict is there, and leaves the core.
pub fn resume_core<R: Threads + Wait + Sync, P: UpdatePolicy + Send + Drop, G: Gate>(
    rt: &R,
    alloc: Global,
    frozen: Frozen,
    first: First,
    settings: Settings,
    policies: Policies<P>,
    gate: &G,
) -> Result<Core<P>, AllocError>
    requires workers { (0 < settings.workers) × (settings.workers ≤ MOST_WORKERS) }
    requires first { BeginsIn frozen first settings.budget }
    requires bare { locations (program_of (arc_value frozen.code)) ≡ [] }
    ensures over { IfOk result IsOver }
    ensures history { (x : FirstShape) → first.shape ≡ Some x →
        let since = history_since (program_of (arc_value frozen.code)) x settings.budget in
        IfOk result (λ c. history_of c ≡ since (entries_of c)) }
{
    let core = Core::thaw(
        alloc,
        frozen,
        first,
        settings.budget,
        settings.plan,
        policies,
    )?;
    run_core(rt, alloc, core, settings.workers, gate)
}

/// Goes on so, and finishes. The policies are dropped when the run ends.
pub fn run_resumed<R: Threads + Wait + Sync, P: UpdatePolicy + Send + Drop, G: Gate>(
    rt: &R,
    alloc: Global,
    frozen: Frozen,
    first: First,
    settings: Settings,
    policies: Policies<P>,
    gate: &G,
) -> Result<RunEnd, AllocError>
    requires workers { (0 < settings.workers) × (settings.workers ≤ MOST_WORKERS) }
    requires first { BeginsIn frozen first settings.budget }
    requires bare { locations (program_of (arc_value frozen.code)) ≡ [] }
    ensures end { (x : FirstShape) → first.shape ≡ Some x →
        let program = program_of (arc_value frozen.code) in
        IfOk result (IsResumedEnd program x settings.budget) }
    // Where the program's run was saved at x:
    ensures one { let program = program_of (arc_value frozen.code) in
        (x : FirstShape) → IsSavedAt program x → first.shape ≡ Some (thawed_first (frozen_at x)) →
        IfOk result (IsEndOfOneRun program x settings.budget) }
{
    let core = resume_core(rt, alloc, frozen, first, settings, policies, gate)?;
    end_of_run(core)
}

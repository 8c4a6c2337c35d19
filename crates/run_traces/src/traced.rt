//! A run with its trace.

ghost use Rattle.std.specs.Prelude.{◌<◌, ◌≤◌, ℕ, IfOk};
ghost use Rattle.asp_model.specs.Shapes.{tree_of};
ghost use Rattle.asp_model.specs.Term.{Tree};
ghost use Rattle.asp_model.specs.declared.limits.TheConstants.{MOST_REDUCTIONS, MOST_WORKERS};
ghost use Rattle.asp_core.specs.Over.{IsOver};
ghost use Rattle.run_traces.specs.Traced.{IsOfProgram, IsTracedRun};

use asp_check::Checked;
use asp_core::Core;
use run_ends::RunEnd;
use std::alloc::{AllocError, Global};
use std::sync::Wait;
use std::thread::Threads;
use trace_text::write_trace;
use update_policy::{Policies, UpdatePolicy};
use worker_pool::{Gate, Settings, run_core};

/// The trace of a run, in pieces, and its end.
#[derive(Drop)]
pub struct Traced {
    pub pieces: Vec<String>,
    pub end: RunEnd,
}

/// Runs a program by so many workers, until its verdict is there, and writes the trace of its
/// journal. The policies are dropped when the run ends.
pub fn run_traced<R: Threads + Wait + Sync, P: UpdatePolicy + Send + Drop, G: Gate>(
    rt: &R,
    alloc: Global,
    program: &Checked,
    settings: Settings,
    policies: Policies<P>,
    gate: &G,
) -> Result<Traced, AllocError>
    requires workers { (0 < settings.workers) × (settings.workers ≤ MOST_WORKERS) }
    requires within { settings.budget ≤ MOST_REDUCTIONS }
    ensures traced { let term = tree_of program.now.program.root in
        IfOk result (IsTracedRun term settings.budget) }
{
    let core = Core::new(alloc, program, settings.budget, settings.plan, policies)?;
    let core = run_core(rt, alloc, core, settings.workers, gate)?;
    written(alloc, core)
}

// The trace of a core whose verdict is there, and its end.
fn written<P: UpdatePolicy + Drop>(alloc: Global, core: Core<P>) -> Result<Traced, AllocError>
    requires over { IsOver core }
    requires within { core.budget ≤ MOST_REDUCTIONS }
    ensures traced { (program : Tree) (budget : ℕ) → IsOfProgram program budget core →
        IfOk result (IsTracedRun program budget) }
{
    match write_trace(alloc, core.journal()) {
        Ok(pieces) => {
            let end = core.outcome()?;
            Ok(Traced { pieces, end })
        }
        Err(error) => {
            core.discard();
            Err(error)
        }
    }
}

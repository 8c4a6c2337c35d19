//! A run by workers, which the caller finishes.

ghost use Rattle.std.specs.Prelude.{◌≡◌, ◌<◌, ◌≤◌, IfOk};
ghost use Rattle.asp_model.specs.History.{BeginsWith};
ghost use Rattle.asp_model.specs.Shapes.{outcome_shape, tree_of};
ghost use Rattle.asp_model.specs.declared.limits.TheConstants.{MOST_REDUCTIONS, MOST_WORKERS};
ghost use Rattle.asp_core.specs.Chosen.{StaysChosen};
ghost use Rattle.asp_core.specs.Cores.{IsHome, IsKept, history_of};
ghost use Rattle.asp_core.specs.Plans.{StayByPlan};
ghost use Rattle.asp_core.specs.Stopping.{StaysStopped};
ghost use Rattle.asp_core.specs.EndOfRun.{IsEndOfRun};
ghost use Rattle.asp_core.specs.Over.{IsOver};
ghost use Rattle.asp_core.specs.PlannedEnds.{IsEndByChoice, IsEndByPlan};
ghost use Rattle.worker_pool.specs.Senders.{OneSenderIsEnough};

use asp_check::Checked;
use asp_core::{Core, end_of_run, finish};
use race_workers::{Gate, race};
use run_ends::RunEnd;
use std::alloc::{AllocError, Global};
use std::sync::Wait;
use std::thread::Threads;
use update_policy::{Plan, Policies, UpdatePolicy};

/// What a run is made with.
#[derive(Drop)]
pub struct Settings {
    pub workers: u32,
    /// The reductions that it may take.
    pub budget: u64,
    pub plan: Plan,
}

/// Runs a core of which nobody is out by so many workers, until its verdict is there. What the
/// workers leave, the caller does: all of it, if no thread can be started.
pub fn run_core<R: Threads + Wait + Sync, P: UpdatePolicy + Send + Drop, G: Gate>(
    rt: &R,
    alloc: Global,
    core: Core<P>,
    workers: u32,
    gate: &G,
) -> Result<Core<P>, AllocError>
    requires workers { (0 < workers) × (workers ≤ MOST_WORKERS) }
    requires kept { IsKept core }
    requires home { IsHome core }
    ensures begins { IfOk result (λ c. BeginsWith (history_of c) (history_of core)) }
    ensures over { IfOk result IsOver }
    ensures by_plan { IfOk result (λ c. StayByPlan P.answer P.asked core.edges c.edges) }
    ensures chosen { IfOk result (λ c. StaysChosen core c) }
    ensures stopped { IfOk result (λ c. StaysStopped (history_of core) (history_of c)) }
{
    let core = race(rt, alloc, core, workers, gate)?;
    finish(core)
}

/// Runs a program by so many workers, until its verdict is there. The policies are dropped when the
/// run ends.
pub fn run<R: Threads + Wait + Sync, P: UpdatePolicy + Send + Drop, G: Gate>(
    rt: &R,
    alloc: Global,
    program: &Checked,
    settings: Settings,
    policies: Policies<P>,
    gate: &G,
) -> Result<RunEnd, AllocError>
    requires workers { (0 < settings.workers) × (settings.workers ≤ MOST_WORKERS) }
    requires within { settings.budget ≤ MOST_REDUCTIONS }
    ensures end { IfOk result (IsEndOfRun (tree_of program.now.program.root) settings.budget) }
    ensures by_plan { let term = tree_of program.now.program.root in
        IfOk result (IsEndByPlan P.answer P.asked settings.plan policies term settings.budget) }
    ensures chosen { let term = tree_of program.now.program.root in
        IfOk result (IsEndByChoice P.answer P.asked settings.plan policies term settings.budget) }
    ensures alone { let program = tree_of program.now.program.root in
        IfOk result (λ r. (e : IsEndOfRun program settings.budget r) →
        OneSenderIsEnough program (outcome_shape r.outcome) e.run.configuration) }
{
    let core = Core::new(alloc, program, settings.budget, settings.plan, policies)?;
    let core = run_core(rt, alloc, core, settings.workers, gate)?;
    end_of_run(core)
}

//! Runs by workers, and what they leave.

ghost use Rattle.std.specs.Prelude.{IfOk};
ghost use Rattle.asp_core.specs.Cores.{IsHome, IsKept};

use crate::counting::{Counted, Tally, scripted};
use crate::gates::HoldingGate;
use crate::programs::{checked, let_go};
use asp_check::Checked;
use asp_core::Core;
use asp_model::{Entry, MOST_WORKERS, Verdict};
use std::alloc::{AllocError, Global};
use std::process::Abort;
use std::sync::{Arc, Wait};
use std::test::Fail;
use std::thread::Threads;
use update_policy::{Plan, Strategy};
use worker_pool::run_core;

/// A program and a budget, by how many workers, under which strategy and by which script.
#[derive(Clone, Copy)]
pub struct Run {
    pub text: &'static str,
    pub budget: u64,
    pub workers: u32,
    pub strategy: Strategy,
    pub script: usize,
}

/// The verdict, and how many reductions each activity took, in the order in which they were created.
#[derive(Drop)]
pub struct Left {
    pub verdict: Option<Verdict>,
    pub used: Vec<u64>,
}

#[tactic(auto, using(crate::proofs::Kept::run_kept))]
fn begun(
    alloc: Global,
    program: &Checked,
    run: &Run,
    tally: &Arc<Tally>,
) -> Result<Core<Counted>, AllocError>
    ensures kept { IfOk result IsKept }
    ensures home { IfOk result IsHome }
{
    let policies = scripted(alloc, run.script, tally)?;
    let plan = Plan::of(alloc, run.strategy);
    Core::new(alloc, program, run.budget, plan, policies)
}

// How many reductions each of so many activities took.
fn used_in(alloc: Global, journal: &[Entry], activities: usize) -> Result<Vec<u64>, AllocError> {
    let mut all: Vec<u64> = Vec::from_elem(alloc, 0, activities)?;
    for entry in journal {
        if let Entry::Committed { number, reductions } = entry {
            if let Some(used) = all.get_mut(*number as usize) {
                *used = used.saturating_add(*reductions);
            }
        }
    }
    Ok(all)
}

fn left_in(alloc: Global, core: &Core<Counted>) -> Result<Left, AllocError>
    requires kept { IsKept core.now }
{
    Ok(Left {
        verdict: core.verdict(),
        used: used_in(alloc, core.journal(), core.activities())?,
    })
}

/// What workers leave of a run when its verdict is there. This alone calls `run_core`.
#[tactic(auto, using(crate::proofs::Kept::over_kept))]
pub fn raced<R: Abort + Threads + Wait + Sync>(
    rt: &R,
    alloc: Global,
    run: &Run,
    tally: &Arc<Tally>,
    gate: &HoldingGate,
) -> Result<Left, Fail> {
    let workers = run.workers;
    assert!(rt; workers > 0 && workers <= MOST_WORKERS);
    let program = checked(alloc, run.text)?;
    let core = begun(alloc, &program, run, tally);
    let_go(program);
    let core = core?;
    let core = run_core(rt, alloc, core, workers, gate)?;
    let left = left_in(alloc, &core);
    core.discard();
    Ok(left?)
}

//! Runs whose budget ends while a worker has a lease of several grants: a later lease is run while that
//! one is held, and all of the budget is used.

use crate::counting::Tally;
use crate::gates::HoldingGate;
use crate::raced::{Left, Run, raced};
use crate::texts::LOOPS;
use asp_model::Verdict;
use std::alloc::Global;
use std::process::Abort;
use std::sync::Wait;
use std::sync::atomic::Ordering;
use std::test::Fail;
use std::thread::Threads;
use update_policy::Strategy;

/// Enough for each of 64 workers to have two grants at once.
const BUDGET: u64 = 600_001;

const GRANTS: u64 = BUDGET / 64;

static WORKERS: [u32; 7] = [1, 2, 3, 4, 8, 16, 64];

/// A worker is held until a lease comes from here on. Hardly more is left then than is kept for it.
const LATE_BURST: u64 = GRANTS - 40;

/// The others may end before a lease comes from there on, in some runs of a hundred.
const MOST_RUNS: u64 = 8;

fn total(left: &Left) -> u64 {
    let mut total: u64 = 0;
    for used in &left.used {
        total = total.saturating_add(*used);
    }
    total
}

// A later lease was run while one was held.
fn uses_all<R: Abort + Threads + Wait + Sync>(
    rt: &R,
    alloc: Global,
    workers: u32,
) -> Result<bool, Fail> {
    let tally = Tally::new(alloc)?;
    let gate = HoldingGate::new(workers == 1, LATE_BURST);
    let run = Run {
        text: LOOPS,
        budget: BUDGET,
        workers,
        strategy: Strategy::Lazy,
        script: 0,
    };
    let left = raced(rt, alloc, &run, &tally, &gate)?;
    assert!(rt; left.verdict == Some(Verdict::Budget), "{workers}");
    assert_eq!(rt; total(&left), BUDGET, "{workers}");
    assert!(rt; gate.held.load(Ordering::SeqCst), "{workers}");
    let leases = gate.leases.load(Ordering::SeqCst);
    assert!(rt; workers > 4 || leases < GRANTS / 4, "{leases} by {workers}");
    Ok(!gate.spent.load(Ordering::SeqCst))
}

fn runs_a_late_one<R: Abort + Threads + Wait + Sync>(
    rt: &R,
    alloc: Global,
    workers: u32,
) -> Result<bool, Fail> {
    for _run in 0..MOST_RUNS {
        if uses_all(rt, alloc, workers)? {
            return Ok(true);
        }
    }
    Ok(false)
}

#[test]
fn the_whole_budget_is_used_though_long_leases_are_out(rt: HostRuntime) -> Result<(), Fail> {
    for workers in WORKERS {
        let late = runs_a_late_one(&rt, rt.alloc(), workers)?;
        assert!(rt; late, "{workers}");
    }
    Ok(())
}

//! How often a policy is asked, and that it is dropped once.

use crate::counting::{ALL_FROM_HOME, Tally};
use crate::gates::HoldingGate;
use crate::raced::{Run, raced};
use crate::texts::{COPIES, PASSING};
use std::alloc::Global;
use std::process::Abort;
use std::sync::Wait;
use std::sync::atomic::Ordering;
use std::test::Fail;
use std::thread::Threads;
use update_policy::Strategy;

/// A program and its strategy, and how often the policy for `message` is asked: once for each edge.
static RUNS: [(&str, Strategy, u64); 4] = [
    (PASSING, Strategy::Message, 10),
    (COPIES, Strategy::Message, 4),
    (PASSING, Strategy::Forward, 0),
    (PASSING, Strategy::Lazy, 0),
];

fn counts<R: Abort + Threads + Wait + Sync>(
    rt: &R,
    alloc: Global,
    text: &'static str,
    strategy: Strategy,
    asked: u64,
) -> Result<(), Fail> {
    let tally = Tally::new(alloc)?;
    let run = Run {
        text,
        budget: 1000,
        workers: 1,
        strategy,
        script: ALL_FROM_HOME,
    };
    raced(rt, alloc, &run, &tally, &HoldingGate::open())?;
    assert_eq!(rt; tally.asked.load(Ordering::SeqCst), asked);
    assert_eq!(rt; tally.dropped.load(Ordering::SeqCst), 1);
    Ok(())
}

#[test]
fn a_policy_is_asked_where_its_strategy_is_given_and_dropped_once(
    rt: HostRuntime,
) -> Result<(), Fail> {
    for (text, strategy, asked) in &RUNS {
        counts(&rt, rt.alloc(), text, *strategy, *asked)?;
    }
    Ok(())
}

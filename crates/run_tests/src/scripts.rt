//! Programs whose run is one, whatever the policies answer.

use crate::counting::Tally;
use crate::gates::HoldingGate;
use crate::raced::{Run, raced};
use crate::texts::{CIRCLE, CIRCLE_OF_TWO};
use asp_model::Verdict;
use std::alloc::Global;
use std::process::Abort;
use std::sync::Wait;
use std::test::Fail;
use std::thread::Threads;
use update_policy::Strategy;

/// A program, and how many reductions each of its activities takes.
static ROWS: [(&str, &[u64]); 2] = [(CIRCLE, &[8, 14]), (CIRCLE_OF_TWO, &[15, 14, 14])];

static WORKERS: [u32; 8] = [1, 2, 3, 4, 6, 8, 16, 64];

static STRATEGIES: [Strategy; 3] = [Strategy::Lazy, Strategy::Forward, Strategy::Message];

/// So many scripts are tried, of the 3 ^ 12 that there are: this far apart.
const SCRIPTS: usize = 120;

const APART: usize = 4_409;

fn blocks<R: Abort + Threads + Wait + Sync>(
    rt: &R,
    alloc: Global,
    text: &'static str,
    used: &[u64],
    number: usize,
) -> Result<(), Fail> {
    let tally = Tally::new(alloc)?;
    let run = Run {
        text,
        budget: 1000,
        workers: WORKERS[number % 8],
        strategy: STRATEGIES[number / 8 % 3],
        script: number.wrapping_mul(APART),
    };
    let left = raced(rt, alloc, &run, &tally, &HoldingGate::open())?;
    assert!(rt; left.verdict == Some(Verdict::Blocked), "{number}");
    assert_eq!(rt; left.used.as_slice(), used, "{number}");
    Ok(())
}

#[test]
fn a_run_is_one_whatever_the_policies_answer(rt: HostRuntime) -> Result<(), Fail> {
    for (text, used) in &ROWS {
        for number in 0..SCRIPTS {
            blocks(&rt, rt.alloc(), text, used, number)?;
        }
    }
    Ok(())
}

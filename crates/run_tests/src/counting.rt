//! Policies that answer from scripts, and count.

use asp_model::{ActivityName, Choice, FutureName};
use std::alloc::{AllocError, Global};
use std::sync::Arc;
use std::sync::atomic::{AtomicU64, Ordering};
use update_policy::{Answers, Policies, ScriptPolicy, UpdatePolicy};

/// How many answers a script has.
const ANSWERS: usize = 12;

const CHOICES: [Choice; 3] = [Choice::Leave, Choice::Forward, Choice::FromHome];

/// The script that has each value sent from its home.
pub const ALL_FROM_HOME: usize = 531_440;

/// How often a policy was asked, and dropped.
#[derive(Drop)]
pub struct Tally {
    pub asked: AtomicU64,
    pub dropped: AtomicU64,
}

impl Tally {
    pub fn new(alloc: Global) -> Result<Arc<Tally>, AllocError> {
        let tally = Tally {
            asked: AtomicU64::new(0),
            dropped: AtomicU64::new(0),
        };
        Ok(Arc::new(alloc, tally)?)
    }
}

/// A policy that answers from a script, and counts.
pub struct Counted {
    script: ScriptPolicy,
    tally: Arc<Tally>,
}

impl UpdatePolicy for Counted {
    ghost use Rattle.update_policy.specs.Scripts.{answer_at};

    ghost answer = { λ p _ _ _. answer_at p.script.answers.choices.items p.script.next };

    fn choose(&mut self, future: &FutureName, from: &ActivityName, to: &ActivityName) -> Choice {
        self.tally.asked.fetch_add(1, Ordering::SeqCst);
        self.script.choose(future, from, to)
    }
}

impl Drop for Counted {
    fn drop(self) {
        let Self { script, tally } = self;
        drop(script);
        tally.dropped.fetch_add(1, Ordering::SeqCst);
    }
}

// A policy whose answers are the digits of a number to base 3, the last one first.
fn script_of(alloc: Global, number: usize, tally: &Arc<Tally>) -> Result<Counted, AllocError> {
    let mut choices = Vec::new(alloc);
    let mut rest = number;
    for _answer in 0..ANSWERS {
        choices.push(CHOICES[rest % 3])?;
        rest /= 3;
    }
    let answers = Answers { choices };
    Ok(Counted {
        script: ScriptPolicy { answers, next: 0 },
        tally: tally.clone()?,
    })
}

/// The script of a number for each strategy. What is counted is that for `message`.
pub fn scripted(
    alloc: Global,
    number: usize,
    tally: &Arc<Tally>,
) -> Result<Policies<Counted>, AllocError> {
    let others = Tally::new(alloc)?;
    Ok(Policies {
        lazy: script_of(alloc, number, &others)?,
        forward: script_of(alloc, number, &others)?,
        message: script_of(alloc, number, tally)?,
    })
}

//! Lists of steps, and the journals to which they lead.

ghost use Rattle.std.specs.Prelude.{IfOk};
ghost use Rattle.asp_core.specs.Cores.{IsKept};

use crate::counting::{Counted, Tally, scripted};
use crate::programs::{checked, let_go};
use crate::texts::{ASKED_64TH, CIRCLE, COUNTER, ENDLESS, FAULTS, HELD, LATER, ONE};
use asp_check::Checked;
use asp_core::Core;
use asp_model::{Entry, Verdict};
use core_drives::{Step, drive};
use std::alloc::{AllocError, Global};
use std::process::Abort;
use std::test::Fail;
use trace_text::{read_trace, write_trace};
use update_policy::{Plan, Strategy};

/// A program with a budget, steps, and the journal and the verdict to which they lead. The steps are told as
/// a trace tells them; an activity that is to come back with no reduction does not run.
struct Row {
    text: &'static str,
    budget: u64,
    steps: &'static str,
    journal: &'static str,
    verdict: Option<Verdict>,
}

static ROWS: [Row; 15] = [
    // who is out is not lent again
    Row {
        text: COUNTER,
        budget: 100,
        steps: "lent 0\nlent 0\ncommitted 0 1\n",
        journal: "lent 0\ncommitted 0 2\n",
        verdict: None,
    },
    // other steps change nothing
    Row {
        text: COUNTER,
        budget: 100,
        steps: "committed 0 0\ncommitted 0 1\ncommitted 7 0\nlent 7\nedge 0#1 0.1 0\nneed 0#1 0 0\n",
        journal: "",
        verdict: None,
    },
    // a lease that did not run comes back with nothing
    Row {
        text: COUNTER,
        budget: 100,
        steps: "lent 0\ncommitted 0 0\ncommitted 0 0\n",
        journal: "lent 0\ncommitted 0 0\n",
        verdict: None,
    },
    // a need is filled at its place
    Row {
        text: COUNTER,
        budget: 100,
        steps: "lent 0\ncommitted 0 1\nlent 0\ncommitted 0 1\nlent 1\ncommitted 1 1\n\
            lent 1\ncommitted 1 1\nlent 1\ncommitted 1 1\n\
            lent 0\nneed 0#1 0 0\nneed 0#1 0 3\nneed 0#1 0 9\nneed 0#2 0 4\nneed 0#1 0.1 4\n\
            need 0#1 0 4\nneed 0#1 0 4\nlent 0\ncommitted 0 1\n",
        journal: "lent 0\ncommitted 0 2\nlent 0\ncommitted 0 3\nlent 1\ncommitted 1 2\n\
            lent 1\ncommitted 1 4\nlent 1\ncommitted 1 3\nneed 0#1 0 4\nlent 0\ncommitted 0 1\n",
        verdict: Some(Verdict::End),
    },
    // who needs a value does not go on
    Row {
        text: COUNTER,
        budget: 100,
        steps: "lent 0\ncommitted 0 1\nlent 0\ncommitted 0 1\nlent 1\ncommitted 1 1\n\
            lent 1\ncommitted 1 1\nlent 0\ncommitted 0 1\nlent 1\ncommitted 1 1\n",
        journal: "lent 0\ncommitted 0 2\nlent 0\ncommitted 0 3\nlent 1\ncommitted 1 2\n\
            lent 1\ncommitted 1 4\nlent 1\ncommitted 1 3\n",
        verdict: None,
    },
    // a lease ends at a future
    Row {
        text: LATER,
        budget: 100,
        steps: "lent 0\ncommitted 0 1\nlent 0\ncommitted 0 1\nlent 0\ncommitted 0 1\n\
            lent 0\ncommitted 0 1\n",
        journal: "lent 0\ncommitted 0 2\nlent 0\ncommitted 0 2\nlent 0\ncommitted 0 4\n",
        verdict: None,
    },
    // a value goes to who is in, as often as it is delivered: not before it is there, and not to who is out;
    // it need not have been passed so, but both have to be there
    Row {
        text: HELD,
        budget: 1000,
        steps: "lent 0\ncommitted 0 1\nlent 0\ncommitted 0 1\nlent 1\ncommitted 1 1\n\
            edge 0#1 0.1 0\nlent 1\ncommitted 1 1\nlent 0\nedge 0#1 0.1 0\ncommitted 0 1\n\
            edge 0#1 0.1 0\nedge 0#1 0.1 0\nedge 0#1 0 0.1\nedge 0#1 0.1 0.2\nedge 0#1 0.2 0.1\n",
        journal: "lent 0\ncommitted 0 2\nlent 0\ncommitted 0 2\nlent 1\ncommitted 1 2\n\
            lent 1\ncommitted 1 3\nlent 0\ncommitted 0 64\n\
            edge 0#1 0.1 0\nedge 0#1 0.1 0\nedge 0#1 0 0.1\n",
        verdict: None,
    },
    // a future that is its own value is delivered
    Row {
        text: CIRCLE,
        budget: 1000,
        steps: "lent 0\ncommitted 0 1\nlent 0\ncommitted 0 1\nlent 0\ncommitted 0 1\n\
            lent 0\ncommitted 0 1\nlent 1\ncommitted 1 1\nlent 1\ncommitted 1 1\n\
            lent 1\ncommitted 1 1\nlent 1\ncommitted 1 1\nlent 1\ncommitted 1 1\n\
            edge 0#1 0.1 0\nedge 0#1 0.1 0\nedge 0#1 0 0.1\nneed 0#1 0 5\n",
        journal: "lent 0\ncommitted 0 3\nlent 0\ncommitted 0 2\nlent 0\ncommitted 0 2\n\
            lent 0\ncommitted 0 1\nlent 1\ncommitted 1 2\nlent 1\ncommitted 1 2\n\
            lent 1\ncommitted 1 3\nlent 1\ncommitted 1 4\nlent 1\ncommitted 1 3\n\
            edge 0#1 0.1 0\nedge 0#1 0.1 0\nedge 0#1 0 0.1\n",
        verdict: Some(Verdict::Blocked),
    },
    // a lease ends at a send and at a fault
    Row {
        text: FAULTS,
        budget: 1000,
        steps: "lent 0\ncommitted 0 1\nlent 1\ncommitted 1 1\nlent 2\ncommitted 2 1\n\
            lent 0\ncommitted 0 1\nlent 1\ncommitted 1 1\nlent 2\ncommitted 2 1\n\
            lent 0\ncommitted 0 1\nlent 1\ncommitted 1 1\nlent 2\ncommitted 2 1\n\
            lent 0\ncommitted 0 1\nlent 1\ncommitted 1 1\nlent 2\ncommitted 2 1\n\
            lent 0\ncommitted 0 1\nlent 1\ncommitted 1 1\nlent 2\ncommitted 2 1\n",
        journal: "lent 0\ncommitted 0 2\nlent 1\ncommitted 1 1\nlent 0\ncommitted 0 3\n\
            lent 2\ncommitted 2 1\nlent 0\ncommitted 0 2\nlent 1\ncommitted 1 1\n\
            lent 0\ncommitted 0 3\nlent 1\ncommitted 1 1\nlent 2\ncommitted 2 1\n\
            lent 0\ncommitted 0 1\nlent 2\ncommitted 2 2\n",
        verdict: Some(Verdict::End),
    },
    // a budget ends inside a lease, and between two
    Row {
        text: ENDLESS,
        budget: 100,
        steps: "lent 0\ncommitted 0 1\nlent 0\ncommitted 0 1\nlent 0\ncommitted 0 1\n",
        journal: "lent 0\ncommitted 0 64\nlent 0\ncommitted 0 36\n",
        verdict: Some(Verdict::Budget),
    },
    Row {
        text: ENDLESS,
        budget: 64,
        steps: "lent 0\ncommitted 0 1\nlent 0\ncommitted 0 1\n",
        journal: "lent 0\ncommitted 0 64\n",
        verdict: Some(Verdict::Budget),
    },
    Row {
        text: ONE,
        budget: 1,
        steps: "lent 0\ncommitted 0 1\nlent 0\ncommitted 0 1\n",
        journal: "lent 0\ncommitted 0 1\n",
        verdict: Some(Verdict::End),
    },
    // a poll is the last reduction of a lease, and of a lease and the budget; and the first for which the budget has none
    Row {
        text: ASKED_64TH,
        budget: 1000,
        steps: "lent 0\ncommitted 0 1\nlent 0\ncommitted 0 1\n",
        journal: "lent 0\ncommitted 0 64\nlent 0\ncommitted 0 2\n",
        verdict: Some(Verdict::End),
    },
    Row {
        text: ASKED_64TH,
        budget: 64,
        steps: "lent 0\ncommitted 0 1\nlent 0\ncommitted 0 1\n",
        journal: "lent 0\ncommitted 0 64\n",
        verdict: Some(Verdict::Budget),
    },
    Row {
        text: ASKED_64TH,
        budget: 63,
        steps: "lent 0\ncommitted 0 1\nlent 0\ncommitted 0 1\n",
        journal: "lent 0\ncommitted 0 63\n",
        verdict: Some(Verdict::Budget),
    },
];

fn trace(alloc: Global, entries: &str) -> Result<String, AllocError> {
    format!(in alloc; "asp trace 1\n{entries}end\n")
}

fn push_steps(steps: &mut Vec<Step>, entry: Entry) -> Result<(), AllocError> {
    match entry {
        Entry::Lent(number) => Ok(steps.push(Step::Lend(number))?),
        Entry::Committed { number, reductions } => {
            if reductions > 0 {
                steps.push(Step::Local(number))?;
            }
            Ok(steps.push(Step::Commit(number))?)
        }
        Entry::Delivered(delivery) => Ok(steps.push(Step::Deliver(Box::into_inner(delivery)))?),
    }
}

fn steps_of(alloc: Global, text: &str) -> Result<Vec<Step>, Fail> {
    let text = trace(alloc, text)?;
    let mut steps = Vec::new(alloc);
    for entry in read_trace(alloc, text.as_bytes())? {
        push_steps(&mut steps, entry)?;
    }
    Ok(steps)
}

#[tactic(auto, using(crate::proofs::Kept::driven_kept))]
fn driven(
    alloc: Global,
    program: &Checked,
    budget: u64,
    steps: &[Step],
) -> Result<Core<Counted>, AllocError>
    ensures kept { IfOk result IsKept }
{
    let policies = scripted(alloc, 0, &Tally::new(alloc)?)?;
    let plan = Plan::of(alloc, Strategy::Lazy);
    drive(alloc, program, budget, plan, policies, steps)
}

// A row's verdict, and the trace of its journal, in pieces of which there is one.
fn told(alloc: Global, row: &Row) -> Result<(Option<Verdict>, Vec<String>), Fail> {
    let steps = steps_of(alloc, row.steps)?;
    let program = checked(alloc, row.text)?;
    let core = driven(alloc, &program, row.budget, &steps);
    let_go(program);
    let core = core?;
    let verdict = core.verdict();
    let pieces = write_trace(alloc, core.journal());
    core.discard();
    Ok((verdict, pieces?))
}

fn leads(rt: &impl Abort, alloc: Global, row: &Row) -> Result<(), Fail> {
    let (verdict, pieces) = told(alloc, row)?;
    let journal = trace(alloc, row.journal)?;
    assert_eq!(rt; pieces.as_slice(), [journal].as_slice());
    assert!(rt; verdict == row.verdict, "{}", row.journal);
    Ok(())
}

#[test]
fn lists_of_steps_lead_to_their_journals(rt: HostRuntime) -> Result<(), Fail> {
    for row in &ROWS {
        leads(&rt, rt.alloc(), row)?;
    }
    Ok(())
}

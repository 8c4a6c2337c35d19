//! The lines of the summary of a run.

ghost use Rattle.std.specs.Prelude.{◌≡◌, ◌++◌, length, map, IfOk, OnOk};
ghost use Rattle.asp_model.specs.Shapes.{activity_shape, outcome_shape, reception_shape};
ghost use Rattle.law_steps.specs.Kept.{senders_among};
ghost use Rattle.run_report.specs.Summary.{requests_in as sum_of_requests, main_lines, summary_lines};

use crate::lines::verdict_line;
use crate::report::push_outputs;
use asp_model::{ActivityName, ActivityReport, Outcome, Reception, Word};
use std::alloc::{AllocError, Global};

/// The lines of the summary of a run of the generated program of so many pairs, without their line
/// feeds: the pairs, the verdict, how many activities there are, how many requests they received
/// in all, and the output of main.
#[tactic(auto, unfolding(crate::specs::Summary::summary_lines))]
pub fn summarize(alloc: Global, pairs: u64, outcome: &Outcome) -> Result<Vec<Word>, AllocError>
    ensures lines { IfOk result (λ v. v.items ≡ summary_lines pairs (outcome_shape outcome.now)) }
{
    let count = outcome.activities.len();
    let requests = requests_in(&outcome.activities);
    let mut lines = Vec::new(alloc);
    lines.push(Word::new(format!(in alloc; "made {pairs}")?))?;
    lines.push(Word::new(String::from_str(alloc, verdict_line(outcome.verdict))?))?;
    lines.push(Word::new(format!(in alloc; "activities {count}")?))?;
    lines.push(Word::new(format!(in alloc; "requests {requests}")?))?;
    push_main_outputs(alloc, &mut lines, &outcome.activities)?;
    Ok(lines)
}

// How many requests the activities received in all. 128 bits hold it for every outcome.
fn requests_in(activities: &[ActivityReport]) -> u128
    ensures { result ≡ sum_of_requests (map activity_shape activities.now) }
{
    let mut sum: u128 = 0;
    for activity in activities {
        sum += requests_logged(&activity.senders) as u128;
    }
    sum
}

// How many requests a log notes.
fn requests_logged(log: &[Reception]) -> usize
    ensures { result ≡ length (senders_among (map reception_shape log.now)) }
{
    let mut count = 0;
    for reception in log {
        match reception {
            Reception::From(_) => count += 1,
            Reception::Poll => {}
        }
    }
    count
}

fn push_main_outputs(
    alloc: Global,
    lines: &mut Vec<Word>,
    activities: &[ActivityReport],
) -> Result<(), AllocError>
    ensures { OnOk result (lines.new.items
        ≡ lines.old.items ++ main_lines (map activity_shape activities.now)) }
{
    let main = ActivityName::main(alloc)?;
    for activity in activities {
        if main == activity.name {
            push_outputs(alloc, lines, &activity.lines)?;
        }
    }
    Ok(())
}

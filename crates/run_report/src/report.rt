//! The lines of a whole report.

ghost use Rattle.std.specs.Prelude.{◌≡◌, ◌++◌, ◌<◌, length, map, IfOk, OnOk};
ghost use Rattle.std.specs.List.{flat_map};
ghost use Rattle.asp_model.specs.Outcome.{counts_in, lists_in};
ghost use Rattle.asp_model.specs.WellFormed.{IsWellFormed};
ghost use Rattle.asp_model.specs.Report.{activity_lines, output_line as line_of_output, text_of};
ghost use Rattle.asp_model.specs.ReadReport.{Reads, read_report};
ghost use Rattle.asp_model.specs.Shapes.{activity_shape, line_shape};
ghost use Rattle.def_paths.specs.Outcomes.{WholeOutcome, end_lines, report_lines_to, reported};
ghost use Rattle.law_reports.specs.Depths.{HasPrintableLabels};
ghost use Rattle.run_ends.specs.Ends.{IsEndOf};
ghost use Rattle.run_report.specs.Ends.{lines_at, states_at};

use crate::lines::{activity_line, output_line, senders_line, verdict_line};
use asp_model::{ActivityReport, Line, Word};
use run_ends::RunEnd;
use state_lines::{state_at, state_lines};
use std::alloc::{AllocError, Global};

/// The lines of the report, without their line feeds. With a depth, the lines that show the state of
/// an activity down to it stand behind its outputs.
pub fn render(alloc: Global, end: &RunEnd, depth: Option<u32>) -> Result<Vec<Word>, AllocError>
    // for what the end of the run stands for
    ensures lines { (o : WholeOutcome) → IsEndOf end.now o →
        IfOk result (λ v. v.items ≡ report_lines_to depth o) }

    // What is written is read again as what it was written from.
    ensures read { (o : WholeOutcome) → IsEndOf end.now o →
        IsWellFormed (reported o) → HasPrintableLabels o →
        let shown = Reads (lists_in (reported o)) (counts_in (reported o)) in
        IfOk result (λ v. read_report (text_of v.items) ≡ shown) }
{
    all_lines(alloc, end, depth)
}

fn all_lines(alloc: Global, end: &RunEnd, depth: Option<u32>) -> Result<Vec<Word>, AllocError>
    ensures { (o : WholeOutcome) → IsEndOf end.now o →
        IfOk result (λ v. v.items ≡ report_lines_to depth o) }
{
    let mut lines = Vec::new(alloc);
    lines.push(Word::new(String::from_str(alloc, "asp report 2")?))?;
    let verdict = verdict_line(end.outcome.verdict);
    lines.push(Word::new(String::from_str(alloc, verdict)?))?;
    push_ends(alloc, &mut lines, end, depth)?;
    Ok(lines)
}

fn push_ends(
    alloc: Global,
    lines: &mut Vec<Word>,
    end: &RunEnd,
    depth: Option<u32>,
) -> Result<(), AllocError>
    ensures { (o : WholeOutcome) → IsEndOf end.now o → OnOk result (lines.new.items
        ≡ lines.old.items ++ flat_map (end_lines depth o.futures) o.ends) }
{
    let count = end.outcome.activities.len();
    // (two lines for each activity, and most have at most one output)
    lines.reserve(count.saturating_mul(3))?;
    for number in 0..count {
        push_end(alloc, lines, end, number, depth)?;
    }
    Ok(())
}

// The lines of the activity with a number, and of its state.
fn push_end(
    alloc: Global,
    lines: &mut Vec<Word>,
    end: &RunEnd,
    number: usize,
    depth: Option<u32>,
) -> Result<(), AllocError>
    requires within { number < length end.now.outcome.activities.items }
    ensures { (o : WholeOutcome) → IsEndOf end.now o →
        OnOk result (lines.new.items ≡ lines.old.items ++ lines_at depth o number) }
{
    push_activity(alloc, lines, &end.outcome.activities[number])?;
    push_state(alloc, lines, end, number, depth)
}

// The lines of one activity.
fn push_activity(
    alloc: Global,
    lines: &mut Vec<Word>,
    activity: &ActivityReport,
) -> Result<(), AllocError>
    ensures { OnOk result (lines.new.items
        ≡ lines.old.items ++ activity_lines (activity_shape activity.now)) }
{
    let line = activity_line(alloc, &activity.name, activity.count, &activity.status)?;
    lines.push(Word::new(line))?;
    lines.push(Word::new(senders_line(alloc, &activity.senders)?))?;
    push_outputs(alloc, lines, &activity.lines)
}

// The lines of the state of the activity with a number, where a depth is given.
fn push_state(
    alloc: Global,
    lines: &mut Vec<Word>,
    end: &RunEnd,
    number: usize,
    depth: Option<u32>,
) -> Result<(), AllocError>
    ensures { (o : WholeOutcome) → IsEndOf end.now o →
        OnOk result (lines.new.items ≡ lines.old.items ++ states_at depth o number) }
{
    let Some(depth) = depth else {
        return Ok(());
    };
    let Some(state) = state_at(end, number) else {
        return Ok(());
    };
    let mut shown = state_lines(alloc, &state, depth)?;
    lines.append(&mut shown)
}

/// Adds the output of one activity, in order.
pub fn push_outputs(
    alloc: Global,
    lines: &mut Vec<Word>,
    outputs: &[Line],
) -> Result<(), AllocError>
    ensures outputs { OnOk result (lines.new.items
        ≡ lines.old.items ++ map line_of_output (map line_shape outputs.now)) }
{
    for output in outputs {
        lines.push(Word::new(output_line(alloc, output)?))?;
    }
    Ok(())
}

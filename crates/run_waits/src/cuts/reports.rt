//! The text of a report that is cut back.

ghost use Rattle.std.specs.Prelude.{◌≡◌, ◌++◌, IfErr, IfOk, None, OnOk, string_bytes};
ghost use Rattle.asp_model.specs.Report.{text_of, with_feed};
ghost use Rattle.asp_model.specs.Shapes.{counts_shape, lists_shape, tree_of};
ghost use Rattle.def_paths.specs.Outcomes.{WholeOutcome};
ghost use Rattle.law_reports.specs.Depths.{report_to};
ghost use Rattle.replay_one.specs.Listed.{AreReplayable};
ghost use Rattle.run_ends.specs.Ends.{IsEndOf};
ghost use Rattle.run_waits.specs.declared.cuts.reports.CutReportStop.TheVariants.{Memory};
ghost use Rattle.run_waits.specs.Reports.{IsCutReport, IsReportStop};

use crate::cuts::{CutStop, cut_back};
use asp_check::Checked;
use asp_model::{Counts, Lists, Word};
use run_ends::RunEnd;
use run_report::render;
use std::alloc::{AllocError, Global};
use text_lines::name_of;

/// Why there is no report that is cut back.
#[derive(Drop)]
pub enum CutReportStop {
    /// The text is no name of an activity.
    NoName,
    NoCut(CutStop),
    Memory,
}

impl From<AllocError> for CutReportStop {
    ghost from_gives = { λ _ s. s ≡ Memory };

    fn from(_error: AllocError) -> CutReportStop {
        CutReportStop::Memory
    }
}

/// The report that logs and counts show, cut back to the least point at which the activity that a
/// text names has made so many reductions. `asp --replay` takes it. `are_replayable` tests what is
/// asked of logs and counts.
pub fn cut_report(
    alloc: Global,
    program: &Checked,
    lists: &Lists,
    counts: &Counts,
    activity: &str,
    count: u64,
) -> Result<String, CutReportStop>
    requires replayable { AreReplayable (lists_shape lists.now) (counts_shape counts.now) }
    ensures report { let all = lists_shape lists.now in let some = counts_shape counts.now in
        IfOk result (λ s. IsCutReport (tree_of program.now.program.root)
        all some activity.now count (string_bytes s)) }
    ensures stop { let all = lists_shape lists.now in let some = counts_shape counts.now in
        IfErr result (IsReportStop (tree_of program.now.program.root)
        all some activity.now count) }
{
    let Some(name) = name_of(alloc, activity.as_bytes())? else {
        return Err(CutReportStop::NoName);
    };
    match cut_back(alloc, program, lists, counts, &name, count) {
        Ok(end) => Ok(text_of_end(alloc, end)?),
        Err(stop) => Err(CutReportStop::NoCut(stop)),
    }
}

// The report of an end that is not needed any more.
fn text_of_end(alloc: Global, end: RunEnd) -> Result<String, AllocError>
    ensures text { (o : WholeOutcome) → IsEndOf end o →
        IfOk result (λ s. string_bytes s ≡ report_to None o) }
{
    report_text(alloc, &end)
}

fn report_text(alloc: Global, end: &RunEnd) -> Result<String, AllocError>
    ensures text { (o : WholeOutcome) → IsEndOf end.now o →
        IfOk result (λ s. string_bytes s ≡ report_to None o) }
{
    let lines = render(alloc, end, None)?;
    let text = joined(alloc, &lines)?;
    Ok(text)
}

// The lines, each with its line feed.
fn joined(alloc: Global, lines: &[Word]) -> Result<String, AllocError>
    ensures { IfOk result (λ s. string_bytes s ≡ text_of lines.now) }
{
    let mut text = String::new(alloc);
    for line in lines {
        add_line(&mut text, line.as_str())?;
    }
    Ok(text)
}

fn add_line(text: &mut String, line: &str) -> Result<(), AllocError>
    ensures { OnOk result (string_bytes text.new ≡ string_bytes text.old ++ with_feed line.now) }
{
    text.push_str(line)?;
    text.push_str("\n")
}

//! What services can tell of the replays of two reports.

ghost use Rattle.std.specs.Prelude.{◌≡◌, [], ◌∷◌, IfOk, IfErr, string_bytes};
ghost use Rattle.asp_top.specs.Seen.{outside};
ghost use Rattle.asp_top.specs.Programs.{AsksInTurn};
ghost use Rattle.asp_top.specs.Comparisons.{Differ, status_said, text_said};
ghost use Rattle.asp_top.specs.Ready.{text_in};
ghost use Rattle.asp_top.specs.Stops.{program_in};
ghost use Rattle.asp_top.specs.Replayed.{IsComparedIn, StopsInBoth, said_of};

use crate::prepare::Prepared;
use crate::reports::services_in;
use crate::stop::{Stop, Which};
use asp_check::Checked;
use asp_edge::Source;
use asp_model::ActivityName;
use replay_services::{Comparison, compare};
use run_report::push_name;
use std::alloc::{AllocError, Global};

fn differ_line(alloc: Global, name: &ActivityName) -> Result<String, AllocError>
    ensures { IfOk result (λ s. string_bytes s ≡ text_said (Differ name.now)) }
{
    let mut text = String::from_str(alloc, "differ ")?;
    push_name(&mut text, name)?;
    text.push_str("\n")?;
    Ok(text)
}

fn line_of(alloc: Global, comparison: Comparison<'_>) -> Result<String, AllocError>
    ensures { IfOk result (λ s. string_bytes s ≡ text_said (said_of comparison.entry)) }
{
    match comparison {
        Comparison::Same => String::from_str(alloc, "same\n"),
        Comparison::Differ(name) => differ_line(alloc, name),
        Comparison::Unended => String::from_str(alloc, "verdict budget\n"),
    }
}

fn status_of(comparison: Comparison<'_>) -> u8
    ensures { result ≡ status_said (said_of comparison.entry) }
{
    match comparison {
        Comparison::Same => 0,
        Comparison::Differ(_) => 0,
        Comparison::Unended => 5,
    }
}

// What is said, with its status.
fn text_for(alloc: Global, comparison: Comparison<'_>) -> Result<Prepared, AllocError>
    ensures text { IfOk result (λ p. text_in p ≡ text_said (said_of comparison.entry)) }
    ensures status { IfOk result (λ p. p.status ≡ status_said (said_of comparison.entry)) }
{
    let mut pieces = Vec::new(alloc);
    pieces.push(line_of(alloc, comparison)?)?;
    Ok(Prepared {
        status: status_of(comparison),
        pieces,
    })
}

/// What services can tell of the replays of the reports in two files.
pub fn compare_reports<'a, S: Source>(
    alloc: Global,
    program: &Checked,
    report: &'a str,
    other: &'a str,
    source: &mut S,
) -> Result<Prepared, Stop<'a>>
    ensures answer { let program = program_in program.now in IfOk result
        (IsComparedIn (outside S.told source) report.entry.now other.entry.now program) }
    ensures stop { let program = program_in program.now in IfErr result
        (StopsInBoth (outside S.told source) report.entry.now other.entry.now program) }
    ensures reads { let names = report.entry.now ∷ other.entry.now ∷ [] in
        AsksInTurn (outside S.told source) names }
{
    let first = services_in(alloc, program, Which::First, report, source)?;
    let second = services_in(alloc, program, Which::Second, other, source)?;
    Ok(text_for(alloc, compare(&first, &second))?)
}

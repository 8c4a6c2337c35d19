//! A whole report.

ghost use Rattle.std.specs.Prelude.{◌≡◌, ◌<◌, ◌≤◌, true, length, map, IfOk, IfErr, OnOk};
ghost use Rattle.std.specs.FinMap.{is_sorted};
ghost use Rattle.asp_model.specs.declared.limits.TheConstants.{MOST_REDUCTIONS};
ghost use Rattle.asp_model.specs.Names.{name_cmp};
ghost use Rattle.asp_model.specs.Replay.{total as sum_of};
ghost use Rattle.asp_model.specs.ReadReport.{Reads, read_on, read_report as reading_of};
ghost use Rattle.asp_model.specs.Shapes.{counts_shape, lists_shape};
ghost use Rattle.sender_log.specs.Answers.{Gives, IsRefusedAt, TellsOf};
ghost use Rattle.sender_log.specs.Progress.{before_lines, behind_line, end_of, progress_shape};

use crate::error::LogError;
use crate::progress::{Next, Progress};
use crate::step::behind;
use asp_model::{Counts, Lists};
use std::alloc::Global;
use text_lines::cut;

/// The logs and the counts that a report shows, or its first line that cannot stand in its
/// place.
pub fn read_report(alloc: Global, bytes: &[u8]) -> Result<(Lists, Counts), LogError>
    ensures ok { IfOk result
        (λ r. reading_of bytes.now ≡ Reads (lists_shape r.0) (counts_shape r.1)) }
    ensures bad_line { IfErr result (TellsOf (reading_of bytes.now)) }

    // What is read can be run again.
    ensures same { IfOk result
        (λ r. map (λ x. x.0) (lists_shape r.0) ≡ map (λ x. x.0) (counts_shape r.1)) }
    ensures ascending { IfOk result (λ r. is_sorted name_cmp (counts_shape r.1) ≡ true) }
    ensures within { IfOk result (λ r. sum_of (counts_shape r.1) ≤ MOST_REDUCTIONS) }
{
    read_bytes(alloc, bytes)
}

fn read_bytes(alloc: Global, bytes: &[u8]) -> Result<(Lists, Counts), LogError>
    ensures ok { IfOk result (Gives (reading_of bytes.now)) }
    ensures bad_line { IfErr result (TellsOf (reading_of bytes.now)) }
{
    let lines = cut(alloc, b'\n', bytes)?;
    read_lines(alloc, &lines)
}

fn read_lines(alloc: Global, lines: &[&[u8]]) -> Result<(Lists, Counts), LogError>
    requires { 0 < length lines.now }
    ensures ok { IfOk result (Gives (read_on before_lines 1 (map (λ l. l.now) lines.now))) }
    ensures bad_line { IfErr result
        (TellsOf (read_on before_lines 1 (map (λ l. l.now) lines.now))) }
{
    let last = lines.len() - 1;
    let mut progress = Progress::new(alloc);
    for i in 0..last {
        advance(alloc, &mut progress, lines[i], i as u64 + 1)?;
    }
    ended(progress, last as u64 + 1, lines[last])
}

// Reads the line of this number.
fn advance(alloc: Global, progress: &mut Progress, line: &[u8], number: u64) -> Result<(), LogError>
    ensures ok { let now = progress_shape progress.new in
        OnOk result (behind_line progress.old line.now ≡ Some now) }
    ensures bad_line { IfErr result (IsRefusedAt number (behind_line progress.old line.now)) }
{
    if behind(alloc, progress, line)? {
        Ok(())
    } else {
        Err(LogError::BadLine { line: number })
    }
}

// At the end of a text, with what stands behind its last line feed.
fn ended(progress: Progress, number: u64, rest: &[u8]) -> Result<(Lists, Counts), LogError>
    ensures ok { IfOk result (Gives (end_of progress number rest.now)) }
    ensures bad_line { IfErr result (TellsOf (end_of progress number rest.now)) }
{
    let Progress {
        next,
        lists,
        counts,
        total: _,
        polls: _,
    } = progress;
    match next {
        Next::Later(_) if rest.is_empty() => {
            Ok((Lists { entries: lists }, Counts { entries: counts }))
        }
        _ => Err(LogError::BadLine { line: number }),
    }
}

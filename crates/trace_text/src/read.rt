//! A whole trace.

ghost use Rattle.std.specs.Prelude.{◌≡◌, ◌<◌, Some, length, map, IfOk, IfErr, OnOk};
ghost use Rattle.asp_model.specs.Shapes.{entry_shape};
ghost use Rattle.trace_text.specs.Traces.{Reads, before_lines, ended as end_of, entry_of as entry_in, read_on, read_trace as reading_of, with_read as with_found};
ghost use Rattle.trace_text.specs.Progress.{IsRefusedAt, Shows, TellsOf, behind_line, next_shape, progress_shape};

use crate::entries::entry_of;
use crate::error::TraceError;
use crate::progress::{Next, Progress};
use asp_model::Entry;
use std::alloc::{AllocError, Global};
use text_lines::cut;

/// The entries of a trace, or its first line that cannot stand in its place.
pub fn read_trace(alloc: Global, bytes: &[u8]) -> Result<Vec<Entry>, TraceError>
    ensures ok { IfOk result (λ v. reading_of bytes.now ≡ Reads (map entry_shape v.items)) }
    ensures bad_line { IfErr result (TellsOf (reading_of bytes.now)) }
{
    let lines = cut(alloc, b'\n', bytes)?;
    read_lines(alloc, &lines)
}

fn read_lines(alloc: Global, lines: &[&[u8]]) -> Result<Vec<Entry>, TraceError>
    requires { 0 < length lines.now }
    ensures ok { let reading = read_on before_lines 1 (map (λ l. l.now) lines.now) in
        IfOk result (λ v. reading ≡ Reads (map entry_shape v.items)) }
    ensures bad_line { IfErr result
        (TellsOf (read_on before_lines 1 (map (λ l. l.now) lines.now))) }
{
    let last = lines.len() - 1;
    let mut progress = Progress::new(alloc);
    for i in 0..last {
        advance(alloc, &mut progress, lines[i], i as u64 + 1)?;
    }
    ended(progress, last as u64 + 1, lines[last])
}

// Reads the line of this number.
fn advance(
    alloc: Global,
    progress: &mut Progress,
    line: &[u8],
    number: u64,
) -> Result<(), TraceError>
    ensures ok { let now = progress_shape progress.new in
        OnOk result (behind_line progress.old line.now ≡ Some now) }
    ensures bad_line { IfErr result (IsRefusedAt number (behind_line progress.old line.now)) }
{
    if behind(alloc, progress, line)? {
        Ok(())
    } else {
        Err(TraceError::BadLine { line: number })
    }
}

// Reads one more line, and returns whether it can stand there.
fn behind(alloc: Global, progress: &mut Progress, line: &[u8]) -> Result<bool, AllocError>
    ensures { IfOk result (Shows (behind_line progress.old line.now) progress.new) }
{
    match progress.next {
        Next::Title => {
            let fits = line == b"asp trace 1".as_slice();
            if fits {
                progress.next = Next::Entries;
            }
            Ok(fits)
        }
        Next::Entries => {
            if line == b"end".as_slice() {
                progress.next = Next::Over;
                return Ok(true);
            }
            with_read(alloc, progress, line)
        }
        Next::Over => Ok(false),
    }
}

fn with_read(alloc: Global, progress: &mut Progress, line: &[u8]) -> Result<bool, AllocError>
    ensures { let found = with_found (progress_shape progress.old) (entry_in line.now) in
        IfOk result (Shows found progress.new) }
{
    match entry_of(alloc, line)? {
        Some(entry) => {
            progress.entries.push(entry)?;
            Ok(true)
        }
        None => Ok(false),
    }
}

// At the end of a text, with what stands behind its last line feed.
fn ended(progress: Progress, number: u64, rest: &[u8]) -> Result<Vec<Entry>, TraceError>
    ensures ok { let reading = end_of (next_shape progress.next) (progress_shape progress)
        number rest.now in
        IfOk result (λ v. reading ≡ Reads (map entry_shape v.items)) }
    ensures bad_line { IfErr result
        (TellsOf (end_of (next_shape progress.next) (progress_shape progress) number rest.now)) }
{
    let Progress { next, entries } = progress;
    match next {
        Next::Over if rest.is_empty() => Ok(entries),
        _ => Err(TraceError::BadLine { line: number }),
    }
}

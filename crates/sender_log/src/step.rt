//! One line of a report behind others.

ghost use Rattle.std.specs.Prelude.{◌≡◌, ◌+◌, ◌≤◌, IfOk, OnOk};
ghost use Rattle.asp_model.specs.ReportLines.{parts, activity_in as activity_in_words, senders_of as senders_in_words};
ghost use Rattle.asp_model.specs.ReadReport.{Title, behind, goes_on as goes_on_shape, with_senders as with_senders_shape};
ghost use Rattle.sender_log.specs.Progress.{Shows, behind_line, fits_at, next_shape, progress_shape, with_entry, with_found};

use crate::lines::{activity_in, is_output, is_title, is_title_with_polls, is_verdict, senders_in};
use crate::progress::{Next, Progress};
use asp_model::{ActivityName, MOST_REDUCTIONS};
use std::alloc::{AllocError, Global};

/// Reads one more line, and returns whether it can stand there.
pub fn behind(alloc: Global, progress: &mut Progress, line: &[u8]) -> Result<bool, AllocError>
    ensures behind { IfOk result (Shows (behind_line progress.old line.now) progress.new) }
{
    match &progress.next {
        Next::Title => Ok(with_title(progress, line)),
        Next::Verdict => Ok(goes_on(progress, Next::Main, is_verdict(line))),
        Next::Main => with_activity(alloc, progress, line),
        Next::Senders(name) => {
            let name = name.copy(alloc)?;
            with_senders(alloc, progress, name, line)
        }
        Next::Later(_) => {
            if is_output(line) {
                Ok(true)
            } else {
                with_activity(alloc, progress, line)
            }
        }
    }
}

// The title says whether logs may have polls.
fn with_title(progress: &mut Progress, line: &[u8]) -> bool
    ensures { Shows (behind Title (progress_shape progress.old) line.now) progress.new result }
{
    if is_title_with_polls(line) {
        progress.polls = true;
        return goes_on(progress, Next::Verdict, true);
    }
    goes_on(progress, Next::Verdict, is_title(line))
}

fn goes_on(progress: &mut Progress, next: Next, fits: bool) -> bool
    ensures { let shape = goes_on_shape (next_shape next) (progress_shape progress.old) fits in
        Shows shape progress.new result }
{
    if fits {
        progress.next = next;
    }
    fits
}

fn with_activity(alloc: Global, progress: &mut Progress, line: &[u8]) -> Result<bool, AllocError>
    ensures { let found = activity_in_words (parts 32 line.now) in
        IfOk result (Shows (with_found progress.old found) progress.new) }
{
    match activity_in(alloc, line)? {
        None => Ok(false),
        Some((name, count)) => with_read(alloc, progress, name, count),
    }
}

// With the activity line of this name and count, where it may stand there.
fn with_read(
    alloc: Global,
    progress: &mut Progress,
    name: ActivityName,
    count: u64,
) -> Result<bool, AllocError>
    ensures { IfOk result (Shows (with_found progress.old (Some (name, count))) progress.new) }
{
    if !fits(alloc, &progress.next, &name)? {
        return Ok(false);
    }
    if count > MOST_REDUCTIONS - progress.total {
        return Ok(false);
    }
    add_entry(alloc, progress, name, count)?;
    Ok(true)
}

// Whether the line of this activity may be the next.
fn fits(alloc: Global, next: &Next, name: &ActivityName) -> Result<bool, AllocError>
    ensures { IfOk result (λ b. b ≡ fits_at (next_shape next.now) name.now) }
{
    match next {
        Next::Main => Ok(ActivityName::main(alloc)? == *name),
        Next::Later(earlier) => Ok(*earlier < *name),
        _ => Ok(false),
    }
}

fn add_entry(
    alloc: Global,
    progress: &mut Progress,
    name: ActivityName,
    count: u64,
) -> Result<(), AllocError>
    requires { progress.old.total + count ≤ MOST_REDUCTIONS }
    ensures { let shape = with_entry (progress_shape progress.old) name count in
        OnOk result (progress_shape progress.new ≡ shape) }
{
    let next = Next::Senders(name.copy(alloc)?);
    progress.counts.push((name, count))?;
    progress.total += count;
    progress.next = next;
    Ok(())
}

fn with_senders(
    alloc: Global,
    progress: &mut Progress,
    name: ActivityName,
    line: &[u8],
) -> Result<bool, AllocError>
    ensures { let found = senders_in_words progress.old.polls (parts 32 line.now) in
        let shape = with_senders_shape name (progress_shape progress.old) found in
        IfOk result (Shows shape progress.new) }
{
    match senders_in(alloc, line, progress.polls)? {
        None => Ok(false),
        Some(log) => {
            let next = Next::Later(name.copy(alloc)?);
            progress.lists.push((name, log))?;
            progress.next = next;
            Ok(true)
        }
    }
}

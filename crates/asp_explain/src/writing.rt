//! What is written: messages, and a text that is ready.

ghost use Rattle.std.specs.Prelude.{◌≡◌, ◌⊎◌, IfErr, IfOk, string_bytes};
ghost use Rattle.asp_explain.specs.Refusals.{NoActivity, NoCount, NoMemory, Unread, bad_line, diverging_line, long_line, message_of, refusal_of, report_text as text_of_report};
ghost use Rattle.explain_writing.specs.Writing.{IsToldBy, sight};
ghost use Rattle.asp_explain.specs.Written.{IsToldOf, IsWritten};

use crate::answer::Answer;
use crate::stop::{Stop, Which};
use asp_edge::Sink;
use asp_model::ActivityName;
use explain_writing::{tell, write_text};
use state_lines::push_name;
use std::alloc::{AllocError, Global};

const USAGE: &[u8] = b"asp-explain: usage: asp-explain FILE [REPORT [OPTION ..]]\n";

const TOO_LONG: &[u8] = b"asp-explain: program: longer than 1048576 bytes\n";

const LARGE_PICTURE: &[u8] =
    b"asp-explain: a picture has at most 60 activities and 2000 events: ask for fewer by --events --from N --most N\n";

const CANNOT_WRITE: &[u8] = b"asp-explain: cannot write\n";

const NO_MEMORY: &[u8] = b"asp-explain: no memory\n";

fn unread_message(alloc: Global, name: &str) -> Result<String, AllocError>
    ensures { IfOk result (λ s. string_bytes s ≡ message_of (Unread name.now)) }
{
    format!(in alloc; "asp-explain: cannot read {name}\n")
}

fn no_activity_message(alloc: Global, name: &str) -> Result<String, AllocError>
    ensures { IfOk result (λ s. string_bytes s ≡ message_of (NoActivity name.now)) }
{
    format!(in alloc; "asp-explain: no activity {name}\n")
}

// What messages call a report.
fn report_text(which: Which) -> &'static str
    ensures { result.now ≡ text_of_report which }
{
    match which {
        Which::First => "report",
        Which::Second => "other",
    }
}

fn long_message(alloc: Global, report: &str) -> Result<String, AllocError>
    ensures { IfOk result (λ s. string_bytes s ≡ long_line report.now) }
{
    format!(in alloc; "asp-explain: {report}: longer than 16777216 bytes\n")
}

fn bad_line_message(alloc: Global, report: &str, line: u64) -> Result<String, AllocError>
    ensures { IfOk result (λ s. string_bytes s ≡ bad_line report.now line) }
{
    format!(in alloc; "asp-explain: {report}: line {line}\n")
}

fn diverges_message(alloc: Global, report: &str, name: &ActivityName) -> Result<String, AllocError>
    ensures { IfOk result (λ s. string_bytes s ≡ diverging_line report.now name.now) }
{
    let mut text = format!(in alloc; "asp-explain: {report}: ")?;
    push_name(&mut text, name)?;
    text.push_str(" diverges\n")?;
    Ok(text)
}

fn count_message(alloc: Global, activity: &str, count: u64) -> Result<String, AllocError>
    ensures { IfOk result (λ s. string_bytes s ≡ message_of (NoCount activity.now count)) }
{
    format!(in alloc; "asp-explain: report: no {count} reductions of {activity}\n")
}

// Writes a message, if it could be made.
fn tell_made<E: Sink>(err: &mut E, message: Result<String, AllocError>, status: u8) -> u8
    ensures made { IfOk message (λ s. IsToldBy (sight E.told err) (string_bytes s) status result) }
    ensures no_memory { IfErr message (λ _. IsToldOf NoMemory (sight E.told err) result) }
{
    match message {
        Ok(text) => tell(err, text.as_bytes(), status),
        Err(AllocError) => tell(err, NO_MEMORY, 8),
    }
}

/// Tells why there is nothing to tell.
pub fn refuse<E: Sink>(alloc: Global, stop: &Stop<'_>, err: &mut E) -> u8
    ensures { IsToldOf (refusal_of stop.now) (sight E.told err) result
        ⊎ IsToldOf NoMemory (sight E.told err) result }
{
    match stop {
        Stop::Usage => tell(err, USAGE, 2),
        Stop::Unread(name) => tell_made(err, unread_message(alloc, name), 6),
        Stop::TooLong => tell(err, TOO_LONG, 3),
        Stop::LongReport(which) => {
            let message = long_message(alloc, report_text(*which));
            tell_made(err, message, 9)
        }
        Stop::BadLine(which, line) => {
            let message = bad_line_message(alloc, report_text(*which), *line);
            tell_made(err, message, 9)
        }
        Stop::Diverged(which, activity) => {
            let message = diverges_message(alloc, report_text(*which), activity);
            tell_made(err, message, 9)
        }
        Stop::NoActivity(name) => tell_made(err, no_activity_message(alloc, name), 2),
        Stop::NoCount(activity, count) => {
            tell_made(err, count_message(alloc, activity, *count), 2)
        }
        Stop::LargePicture => tell(err, LARGE_PICTURE, 2),
        Stop::Memory => tell(err, NO_MEMORY, 8),
    }
}

/// Writes a text that is ready.
pub fn write_answer<O: Sink, E: Sink>(answer: &Answer, out: &mut O, err: &mut E) -> u8
    ensures { IsWritten (sight O.told out) (sight E.told err) answer.now.text.items
        answer.now.status result }
{
    write_text(&answer.text, answer.status, CANNOT_WRITE, out, err)
}

//! The lines of a report one by one, without their line feeds.

ghost use Rattle.std.specs.Prelude.{◌≡◌, map, string_bytes, IfOk, OnOk};
ghost use Rattle.asp_model.specs.Report.{fault_text as text_of_fault, reception_text, status_text, verdict_line as line_of_verdict, senders_line as line_of_senders, output_line as line_of_output};
ghost use Rattle.asp_model.specs.Shapes.{fault_shape, line_shape, reception_shape, status_shape, verdict_shape};
ghost use Rattle.state_lines.specs.Texts.{AddsText};
ghost use Rattle.run_report.specs.Pieces.{activity_text};

use asp_model::{ActivityName, Fault, Line, Reception, Status, Verdict};
use state_lines::{push_future, push_name};
use std::alloc::{AllocError, Global};

// Room in which most lines fit with their line feeds, so that each is made by one allocation.
const ACTIVITY_ROOM: usize = 40;

const SHORT_ROOM: usize = 24;

/// How the run ended.
pub fn verdict_line(verdict: Verdict) -> &'static str
    ensures verdict { result.now ≡ line_of_verdict (verdict_shape verdict) }
{
    match verdict {
        Verdict::End => "verdict end",
        Verdict::Blocked => "verdict blocked",
        Verdict::Budget => "verdict budget",
    }
}

/// An activity's name, its reductions and what it does.
pub fn activity_line(
    alloc: Global,
    name: &ActivityName,
    count: u64,
    status: &Status,
) -> Result<String, AllocError>
    ensures activity { IfOk result (λ s. string_bytes s
        ≡ activity_text name.now count (status_shape status.now)) }
{
    let mut text = String::with_capacity(alloc, ACTIVITY_ROOM)?;
    text.push_str("activity ")?;
    push_name(&mut text, name)?;
    write!(text, " {count} ")?;
    push_status(&mut text, status)?;
    Ok(text)
}

/// What an activity received and asked, in order: who sent each request, and each poll.
pub fn senders_line(alloc: Global, log: &[Reception]) -> Result<String, AllocError>
    ensures senders { let shapes = map reception_shape log.now in
        IfOk result (λ s. string_bytes s ≡ line_of_senders shapes) }
{
    let mut text = String::with_capacity(alloc, SHORT_ROOM)?;
    text.push_str("senders")?;
    for reception in log {
        text.push_str(" ")?;
        push_reception(&mut text, reception)?;
    }
    Ok(text)
}

// A sender's name, or what stands for a poll.
fn push_reception(text: &mut String, reception: &Reception) -> Result<(), AllocError>
    ensures { let added = reception_text (reception_shape reception.now) in
        OnOk result (AddsText text.old text.new added) }
{
    match reception {
        Reception::From(name) => push_name(text, name),
        Reception::Poll => text.push_str("?"),
    }
}

/// A line of an activity's output.
pub fn output_line(alloc: Global, line: &Line) -> Result<String, AllocError>
    ensures output { IfOk result (λ s. string_bytes s ≡ line_of_output (line_shape line.now)) }
{
    let mut text = String::with_capacity(alloc, SHORT_ROOM)?;
    match line {
        Line::Number(n) => write!(text, "> {n}")?,
        Line::Text(word) => {
            text.push_str("| ")?;
            text.push_str(word.as_str())?;
        }
    }
    Ok(text)
}

// What an activity does at the end.
fn push_status(text: &mut String, status: &Status) -> Result<(), AllocError>
    ensures { OnOk result (AddsText text.old text.new (status_text (status_shape status.now))) }
{
    match status {
        Status::Done => text.push_str("done"),
        Status::Serving => text.push_str("serving"),
        Status::Running => text.push_str("running"),
        Status::Awaits(future) => {
            text.push_str("awaits ")?;
            push_future(text, future)
        }
        Status::Faulted(fault) => {
            text.push_str("fault ")?;
            text.push_str(fault_text(*fault))
        }
    }
}

fn fault_text(fault: Fault) -> &'static str
    ensures { result.now ≡ text_of_fault (fault_shape fault) }
{
    match fault {
        Fault::NoField => "NoField",
        Fault::NoMethod => "NoMethod",
        Fault::NotObject => "NotObject",
        Fault::NotNumber => "NotNumber",
        Fault::NotGroup => "NotGroup",
        Fault::BadMember => "BadMember",
        Fault::ActiveField => "ActiveField",
        Fault::Overflow => "Overflow",
        Fault::ZeroDivisor => "ZeroDivisor",
    }
}

//! What is written: messages, and a text that is ready.

ghost use Rattle.std.specs.Prelude.{◌≡◌, ◌≤◌, string_bytes, IfOk, IfErr, OnOk, OnErr};
ghost use Rattle.asp_top.specs.Seen.{Fails, Takes, TakesSome, sight};
ghost use Rattle.asp_top.specs.Refusals.{kind_text as text_of_kind, check_text as text_of_check, option_text as text_of_option, bad_line, diverging_line, fault_line, long_line, message_of, NoMemory, NoTrace, Unlawful, Unread};
ghost use Rattle.asp_top.specs.Stops.{refusal_of};
ghost use Rattle.asp_top.specs.Ready.{Told, ToldOf, ToldRefusal, WrittenOf, text_of_all};

use crate::prepare::Prepared;
use crate::stop::{Stop, Which};
use asp_check::CheckKind;
use asp_edge::{Sink, WriteFailed};
use asp_model::ActivityName;
use asp_syntax::SyntaxKind;
use run_report::push_name;
use std::alloc::{AllocError, Global};

const USAGE: &[u8] = b"asp: usage: asp FILE [OPTION ..], or asp --make N [OPTION ..]\n";

const LONG_PROGRAM: &[u8] = b"asp: program: longer than 1048576 bytes\n";

const LONG_TRACE: &[u8] = b"asp: trace: longer than 67108864 bytes\n";

const UNFINISHED: &[u8] = b"asp: trace: unfinished\n";

const LONG_CHECKPOINT: &[u8] = b"asp: resume: longer than 268435456 bytes\n";

const OTHER_CHECKPOINT: &[u8] = b"asp: resume: another program\n";

const NO_CHECKPOINT: &[u8] = b"asp: resume: malformed\n";

const OVERSPENT: &[u8] = b"asp: resume: more than 10000000 reductions\n";

const CANNOT_WRITE: &[u8] = b"asp: cannot write\n";

const NO_MEMORY: &[u8] = b"asp: no memory\n";

fn kind_text(kind: SyntaxKind) -> &'static str
    ensures { result.now ≡ text_of_kind kind }
{
    match kind {
        SyntaxKind::BadByte => "BadByte",
        SyntaxKind::BadNumber => "BadNumber",
        SyntaxKind::Unexpected => "Unexpected",
        SyntaxKind::TooDeep => "TooDeep",
        SyntaxKind::NotAField => "NotAField",
    }
}

fn check_text(kind: CheckKind) -> &'static str
    ensures { result.now ≡ text_of_check kind }
{
    match kind {
        CheckKind::Unbound => "Unbound",
        CheckKind::DoubleLabel => "DoubleLabel",
        CheckKind::DoubleParameter => "DoubleParameter",
        CheckKind::TooManyParameters => "TooManyParameters",
        CheckKind::Arity => "Arity",
        CheckKind::ServiceArity => "ServiceArity",
    }
}

// What is wrong with the program, and where.
fn fault_message(alloc: Global, kind: &str, at: usize) -> Result<String, AllocError>
    ensures { IfOk result (λ s. string_bytes s ≡ fault_line kind.now at) }
{
    format!(in alloc; "asp: program: {kind} at {at}\n")
}

fn unread_message(alloc: Global, name: &str) -> Result<String, AllocError>
    ensures { IfOk result (λ s. string_bytes s ≡ message_of (Unread name.now)) }
{
    format!(in alloc; "asp: cannot read {name}\n")
}

// The option that names a report.
fn option_text(which: Which) -> &'static str
    ensures { result.now ≡ text_of_option which }
{
    match which {
        Which::First => "replay",
        Which::Second => "same",
    }
}

fn long_message(alloc: Global, option: &str) -> Result<String, AllocError>
    ensures { IfOk result (λ s. string_bytes s ≡ long_line option.now) }
{
    format!(in alloc; "asp: {option}: longer than 16777216 bytes\n")
}

fn bad_line_message(alloc: Global, option: &str, line: u64) -> Result<String, AllocError>
    ensures { IfOk result (λ s. string_bytes s ≡ bad_line option.now line) }
{
    format!(in alloc; "asp: {option}: line {line}\n")
}

fn diverges_message(alloc: Global, option: &str, name: &ActivityName) -> Result<String, AllocError>
    ensures { IfOk result (λ s. string_bytes s ≡ diverging_line option.now name.now) }
{
    let mut text = format!(in alloc; "asp: {option}: ")?;
    push_name(&mut text, name)?;
    text.push_str(" diverges\n")?;
    Ok(text)
}

fn trace_message(alloc: Global, line: u64) -> Result<String, AllocError>
    ensures { IfOk result (λ s. string_bytes s ≡ message_of (NoTrace line)) }
{
    format!(in alloc; "asp: trace: line {line}\n")
}

// An entry stands in the line behind its number.
fn unlawful_message(alloc: Global, entry: u64) -> Result<String, AllocError>
    ensures { IfOk result (λ s. string_bytes s ≡ message_of (Unlawful entry)) }
{
    let line = u128::from(entry) + 1;
    format!(in alloc; "asp: trace: line {line}\n")
}

// Writes a message, and answers the status, or 7 where the sink failed.
fn tell<E: Sink>(err: &mut E, message: &[u8], status: u8) -> u8
    ensures { Told (sight E.told err) message.now status result }
{
    match err.write(message) {
        Ok(()) => status,
        Err(WriteFailed) => 7,
    }
}

// Writes a message, if it could be made.
fn tell_made<E: Sink>(err: &mut E, message: Result<String, AllocError>, status: u8) -> u8
    ensures made { IfOk message (λ s. Told (sight E.told err) (string_bytes s) status result) }
    ensures no_memory { IfErr message (λ _. ToldRefusal NoMemory (sight E.told err) result) }
{
    match message {
        Ok(text) => tell(err, text.as_bytes(), status),
        Err(AllocError) => tell(err, NO_MEMORY, 8),
    }
}

/// Tells why there is nothing to write.
pub fn refuse<E: Sink>(alloc: Global, stop: &Stop<'_>, err: &mut E) -> u8
    ensures { ToldOf (refusal_of stop.now) (sight E.told err) result }
{
    match stop {
        Stop::Usage => tell(err, USAGE, 2),
        Stop::Unread(name) => tell_made(err, unread_message(alloc, name), 6),
        Stop::LongProgram => tell(err, LONG_PROGRAM, 3),
        Stop::Syntax(fault) => {
            let message = fault_message(alloc, kind_text(fault.kind), fault.at);
            tell_made(err, message, 3)
        }
        Stop::Check(fault) => {
            let message = fault_message(alloc, check_text(fault.kind), fault.at);
            tell_made(err, message, 3)
        }
        Stop::LongReport(which) => {
            let message = long_message(alloc, option_text(*which));
            tell_made(err, message, 9)
        }
        Stop::BadLine(which, line) => {
            let message = bad_line_message(alloc, option_text(*which), *line);
            tell_made(err, message, 9)
        }
        Stop::Diverged(which, activity) => {
            let message = diverges_message(alloc, option_text(*which), activity);
            tell_made(err, message, 9)
        }
        Stop::LongTrace => tell(err, LONG_TRACE, 10),
        Stop::NoTrace(line) => tell_made(err, trace_message(alloc, *line), 10),
        Stop::Unlawful(entry) => tell_made(err, unlawful_message(alloc, *entry), 10),
        Stop::Unfinished => tell(err, UNFINISHED, 10),
        Stop::LongCheckpoint => tell(err, LONG_CHECKPOINT, 11),
        Stop::OtherCheckpoint => tell(err, OTHER_CHECKPOINT, 11),
        Stop::NoCheckpoint => tell(err, NO_CHECKPOINT, 11),
        Stop::Overspent => tell(err, OVERSPENT, 11),
        Stop::Memory => tell(err, NO_MEMORY, 8),
    }
}

// Writes pieces one by one.
fn write_all<O: Sink>(out: &mut O, pieces: &[String]) -> Result<(), WriteFailed>
    ensures all { OnOk result (Takes (sight O.told out) (text_of_all pieces.now)) }
    ensures front { OnErr result (TakesSome (sight O.told out) (text_of_all pieces.now)) }
    ensures later { (O.told out.old).faults ≤ (O.told out.new).faults }
    ensures cause { OnErr result (Fails (sight O.told out)) }
{
    for piece in pieces {
        out.write(piece.as_bytes())?;
    }
    Ok(())
}

/// Writes a text that is ready.
pub fn write_prepared<O: Sink, E: Sink>(prepared: &Prepared, out: &mut O, err: &mut E) -> u8
    ensures { WrittenOf (sight O.told out) (sight E.told err) prepared.now result }
{
    match write_all(out, &prepared.pieces) {
        Ok(()) => prepared.status,
        Err(WriteFailed) => tell(err, CANNOT_WRITE, 7),
    }
}

//! Messages.

ghost use Rattle.std.specs.Prelude.{◌≡◌, IfOk, string_bytes};
ghost use Rattle.asp_top.specs.Seen.{sight};
ghost use Rattle.outcomes_top.specs.Endings.{missing_line};
ghost use Rattle.outcomes_top.specs.Given.{message_of_fault, status_of_fault};
ghost use Rattle.outcomes_top.specs.declared.halt.Fault.TheVariants as faults;
ghost use Rattle.outcomes_words.specs.declared.task.Choice.TheVariants as choices;
ghost use Rattle.outcomes_top.specs.Surveys.{IsToldBy, IsToldOf, IsToldOr};

use crate::halt::{Fault, Halt};
use asp_edge::{Sink, WriteFailed};
use asp_model::ActivityName;
use asp_top::{Stop, refuse};
use outcomes_words::Choice;
use run_report::push_name;
use std::alloc::{AllocError, Global};

const USAGE: &[u8] = b"asp-outcomes: usage: asp-outcomes FILE [OPTION ..]\n";

fn no_outcome_message(alloc: Global, number: u64) -> Result<String, AllocError>
    ensures { IfOk result (λ s. string_bytes s ≡ missing_line (choices.Outcome number)) }
{
    format!(in alloc; "asp-outcomes: no outcome {number}\n")
}

fn no_end_message(alloc: Global, number: u64) -> Result<String, AllocError>
    ensures { IfOk result (λ s. string_bytes s ≡ missing_line (choices.End number)) }
{
    format!(in alloc; "asp-outcomes: no end {number}\n")
}

fn missing_message(alloc: Global, choice: Choice) -> Result<String, AllocError>
    ensures { IfOk result (λ s. string_bytes s ≡ missing_line choice) }
{
    match choice {
        Choice::Outcome(number) => no_outcome_message(alloc, number),
        Choice::End(number) => no_end_message(alloc, number),
    }
}

// Writes a message, and returns the status, or 7 if the sink failed.
fn say<E: Sink>(err: &mut E, message: &[u8], status: u8) -> u8
    ensures { IsToldBy (sight E.told err) message.now status result }
{
    match err.write(message) {
        Ok(()) => status,
        Err(WriteFailed) => 7,
    }
}

// Tells that there is no outcome, or no end, of this number.
fn say_missing<E: Sink>(alloc: Global, choice: Choice, err: &mut E) -> u8
    ensures { IsToldOr (missing_line choice) 2 (sight E.told err) result }
{
    match missing_message(alloc, choice) {
        Ok(text) => say(err, text.as_bytes(), 2),
        Err(AllocError) => refuse(alloc, &Stop::Memory, err),
    }
}

fn unread_message(alloc: Global, name: &str) -> Result<String, AllocError>
    ensures { IfOk result (λ s. string_bytes s ≡ message_of_fault name.now faults.Unread) }
{
    format!(in alloc; "asp-outcomes: cannot read {name}\n")
}

fn long_message(alloc: Global, name: &str) -> Result<String, AllocError>
    ensures { IfOk result (λ s. string_bytes s ≡ message_of_fault name.now faults.Long) }
{
    format!(in alloc; "asp-outcomes: {name}: longer than 16777216 bytes\n")
}

fn line_message(alloc: Global, name: &str, number: u64) -> Result<String, AllocError>
    ensures { IfOk result (λ s. string_bytes s ≡ message_of_fault name.now (faults.Line number)) }
{
    format!(in alloc; "asp-outcomes: {name}: line {number}\n")
}

fn diverges_message(
    alloc: Global,
    name: &str,
    activity: &ActivityName,
) -> Result<String, AllocError>
    ensures { IfOk result
        (λ s. string_bytes s ≡ message_of_fault name.now (faults.Diverges activity.now)) }
{
    let mut text = format!(in alloc; "asp-outcomes: {name}: ")?;
    push_name(&mut text, activity)?;
    text.push_str(" diverges\n")?;
    Ok(text)
}

fn goes_on_message(alloc: Global, name: &str) -> Result<String, AllocError>
    ensures { IfOk result (λ s. string_bytes s ≡ message_of_fault name.now faults.GoesOn) }
{
    format!(in alloc; "asp-outcomes: {name}: not ended\n")
}

// Why the file of this name is refused.
fn fault_message(alloc: Global, name: &str, fault: &Fault) -> Result<String, AllocError>
    ensures { IfOk result (λ s. string_bytes s ≡ message_of_fault name.now fault.now) }
{
    match fault {
        Fault::Unread => unread_message(alloc, name),
        Fault::Long => long_message(alloc, name),
        Fault::Line(number) => line_message(alloc, name, *number),
        Fault::Diverges(activity) => diverges_message(alloc, name, activity),
        Fault::GoesOn => goes_on_message(alloc, name),
    }
}

fn fault_status(fault: &Fault) -> u8
    ensures { result ≡ status_of_fault fault.now }
{
    match fault {
        Fault::Unread => 6,
        Fault::Long | Fault::Line(_) | Fault::Diverges(_) | Fault::GoesOn => 9,
    }
}

// Tells that the file of this name is refused.
fn say_fault<E: Sink>(alloc: Global, name: &str, fault: &Fault, err: &mut E) -> u8
    ensures { let line = message_of_fault name.now fault.now in
        IsToldOr line (status_of_fault fault.now) (sight E.told err) result }
{
    match fault_message(alloc, name, fault) {
        Ok(text) => say(err, text.as_bytes(), fault_status(fault)),
        Err(AllocError) => refuse(alloc, &Stop::Memory, err),
    }
}

/// Tells why nothing is told.
pub fn halt<E: Sink>(alloc: Global, halt: &Halt<'_>, err: &mut E) -> u8
    ensures { IsToldOf halt.now (sight E.told err) result }
{
    match halt {
        Halt::Usage => say(err, USAGE, 2),
        Halt::Stop(stop) => refuse(alloc, stop, err),
        Halt::Given(name, fault) => say_fault(alloc, name, fault, err),
        Halt::Missing(choice) => say_missing(alloc, *choice, err),
    }
}

//! Events as people read them.

use crate::events::EventsRun;
use crate::events::event::{RunEvent, What};
use crate::events::places::Places;
use crate::text_pieces::Telling;
use asp_model::{Fault, FutureName, Label, Line};
use run_waits::Asked;
use std::alloc::{AllocError, Global};

/// Tells events of a run of the program in a file. The first of them has this number.
pub fn tell_events(
    alloc: Global,
    file: &str,
    bytes: &[u8],
    from: u64,
    run: &EventsRun,
) -> Result<String, AllocError> {
    let mut places = Places::new(alloc, file, bytes);
    let mut text = Telling::new(alloc);
    push_heading(&mut text, from, run);
    let mut number = from;
    for event in &run.events {
        text.push_count(number);
        text.push(": ");
        push_event(&mut text, event, &mut places);
        text.push("\n");
        number = number.saturating_add(1);
    }
    text.whole()
}

// Which events these are, of how many.
fn push_heading(text: &mut Telling, from: u64, run: &EventsRun) {
    let count = run.events.len() as u64;
    if count == 0 {
        text.push("no events from ");
        text.push_count(from);
        text.push(" on, of ");
        text.push_count(run.all);
        text.push("\n");
    } else {
        text.push("events ");
        text.push_count(from);
        text.push(" to ");
        text.push_count(from.saturating_add(count - 1));
        text.push(" of ");
        text.push_count(run.all);
        text.push(", each after so many reductions of its activity\n");
    }
}

// Who does what, where in the text, after how many of its reductions.
fn push_event(text: &mut Telling, event: &RunEvent, places: &mut Places<'_>) {
    text.push_name(&event.by);
    places.push(text, event.at);
    text.push(" after ");
    text.push_count(event.count);
    text.push(" ");
    push_what(text, &event.what);
}

fn push_what(text: &mut Telling, what: &What) {
    match what {
        What::Creates(made) => {
            text.push("creates ");
            text.push_name(made);
        }
        What::Sends(to, asked) => {
            text.push("sends ");
            push_asked(text, asked);
            text.push(" to ");
            text.push_name(to);
        }
        What::Serves(asked) => {
            text.push("serves ");
            push_served(text, asked);
        }
        What::Answers(label, future) => {
            text.push("answers ");
            push_answered(text, label, future);
        }
        What::Polls => text.push("asks what is pending"),
        What::Prints(line) => {
            text.push("prints ");
            push_line(text, line);
        }
        What::Fails(fault) => {
            text.push("stops at ");
            text.push(fault_text(*fault));
        }
    }
}

// A label, and a space behind it.
fn push_label(text: &mut Telling, label: &Label) {
    text.push("`");
    text.push(label.text.as_str());
    text.push("` ");
}

// A request: its label, and its future, which is named by who asks.
fn push_asked(text: &mut Telling, asked: &Asked) {
    push_label(text, &asked.label);
    text.push_future(&asked.future);
}

fn push_served(text: &mut Telling, asked: &Option<Asked>) {
    match asked {
        Some(asked) => push_asked(text, asked),
        None => text.push("a request"),
    }
}

fn push_answered(text: &mut Telling, label: &Option<Label>, future: &FutureName) {
    if let Some(label) = label {
        push_label(text, label);
    }
    text.push_future(future);
}

// A line as it was printed, a text in quotes.
fn push_line(text: &mut Telling, line: &Line) {
    match line {
        Line::Number(number) => text.push_number(*number),
        Line::Text(word) => {
            text.push("\"");
            text.push(word.as_str());
            text.push("\"");
        }
    }
}

/// A fault, as reports name it.
pub fn fault_text(fault: Fault) -> &'static str {
    match fault {
        Fault::NoField => "NoField",
        Fault::NoMethod => "NoMethod",
        Fault::NotObject => "NotObject",
        Fault::NotNumber => "NotNumber",
        Fault::NotGroup => "NotGroup",
        Fault::BadMember => "BadMember",
        Fault::ActiveField => "ActiveField",
        Fault::Overflow => "Overflow",
        Fault::ZeroDivisor => "ZeroDivisor",
    }
}

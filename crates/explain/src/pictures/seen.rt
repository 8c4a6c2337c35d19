//! What is drawn of the events of a run.

ghost use Rattle.std.specs.Prelude.{◌≤◌, IfNone, IfOk, length};
ghost use Rattle.explain.specs.Large.{IsLarge};

use crate::events::{EventsRun, RunEvent, What, fault_text};
use crate::pictures::picture::{MOST_LANES, Title, are_many, picture_of};
use crate::pictures::run::{Event, Lane, Mark, Rest, Run};
use crate::text_pieces::{Telling, push_line};
use asp_model::{ActivityName, ActivityReport, FutureName, Status};
use state_lines::push_name;
use std::alloc::{AllocError, Global};

/// The picture of events of a run, of which the first has this number: an SVG text. Main has a
/// line, and each activity that takes part in one of the events. There is none of a run that is
/// too large. The entry of a log that is made behind so many others stands out.
#[tactic(auto, using(crate::proofs::LargeLemmas::still_many))]
pub fn draw(
    alloc: Global,
    file: &str,
    from: u64,
    seen: &EventsRun,
    entry: Option<usize>,
) -> Result<Option<String>, AllocError>
    ensures large { IfOk result (λ o. IfNone o (IsLarge seen.now)) }
{
    let drawn = drawn_in(alloc, seen)?;
    if are_many(drawn.len(), seen.events.len()) {
        return Ok(None);
    }
    let title = Title {
        file,
        from,
        count: seen.events.len() as u64,
        all: seen.all,
    };
    let run = Run {
        lanes: lanes_of(alloc, seen, &drawn, goes_on(from, seen))?,
        events: marks_in(alloc, seen, &drawn, entry)?,
    };
    Ok(Some(picture_of(alloc, title, &run)?))
}

// More happens behind these events.
fn goes_on(from: u64, seen: &EventsRun) -> bool {
    from.saturating_add(seen.events.len() as u64) <= seen.all
}

// Who has a line

// The numbers of main, and of those that take part in an event.
fn drawn_in(alloc: Global, seen: &EventsRun) -> Result<Vec<usize>, AllocError>
    ensures drawn { IfOk result
        (λ v. length v.items ≤ length seen.now.outcome.activities.items) }
{
    let names = names_in(alloc, &seen.events)?;
    let activities = &seen.outcome.activities;
    let mut drawn = Vec::new(alloc);
    for number in 0..activities.len() {
        if is_drawn(&names, &activities[number].name) {
            drawn.push(number)?;
        }
    }
    Ok(drawn)
}

fn is_drawn(names: &[&ActivityName], name: &ActivityName) -> bool {
    name.path().len() == 1 || is_among(names, name)
}

fn is_among(names: &[&ActivityName], name: &ActivityName) -> bool {
    for among in names {
        if **among == *name {
            return true;
        }
    }
    false
}

// The names of those that take part in an event. Of too many, some are left out.
fn names_in<'a>(
    alloc: Global,
    events: &'a [RunEvent],
) -> Result<Vec<&'a ActivityName>, AllocError> {
    let mut names = Vec::new(alloc);
    for event in events {
        add_name(&mut names, &event.by)?;
        if let Some(other) = other_of(&event.what) {
            add_name(&mut names, other)?;
        }
    }
    Ok(names)
}

fn add_name<'a>(
    names: &mut Vec<&'a ActivityName>,
    name: &'a ActivityName,
) -> Result<(), AllocError> {
    if names.len() <= MOST_LANES && !is_among(names, name) {
        names.push(name)?;
    }
    Ok(())
}

// Who is created, or whom a request comes to.
fn other_of(what: &What) -> Option<&ActivityName> {
    match what {
        What::Creates(made) => Some(made),
        What::Sends(to, _) => Some(to),
        What::Serves(_) | What::Answers(_, _) => None,
        What::Polls | What::Prints(_) | What::Fails(_) => None,
    }
}

// The place of the line of an activity.
fn lane_at(activities: &[ActivityReport], drawn: &[usize], name: &ActivityName) -> Option<usize> {
    for lane in 0..drawn.len() {
        if let Some(activity) = activities.get(drawn[lane]) {
            if activity.name == *name {
                return Some(lane);
            }
        }
    }
    None
}

// How lines end

fn lanes_of(
    alloc: Global,
    seen: &EventsRun,
    drawn: &[usize],
    goes_on: bool,
) -> Result<Vec<Lane>, AllocError> {
    let mut lanes = Vec::new(alloc);
    for number in drawn {
        if let Some(activity) = seen.outcome.activities.get(*number) {
            let rest = if goes_on {
                Rest::Further
            } else {
                rest_of(seen, drawn, &activity.status)
            };
            let mut name = String::new(alloc);
            push_name(&mut name, &activity.name)?;
            lanes.push(Lane { name, rest })?;
        }
    }
    Ok(lanes)
}

fn rest_of(seen: &EventsRun, drawn: &[usize], status: &Status) -> Rest {
    match status {
        Status::Done => Rest::Done,
        Status::Serving => Rest::Serving,
        Status::Running => Rest::Running,
        Status::Awaits(future) => Rest::Awaits(receiver_of(seen, drawn, future)),
        Status::Faulted(_) => Rest::Failed,
    }
}

// The line of who received the request of a future.
fn receiver_of(seen: &EventsRun, drawn: &[usize], future: &FutureName) -> Option<usize> {
    for event in &seen.events {
        if let What::Sends(to, asked) = &event.what {
            if asked.future == *future {
                return lane_at(&seen.outcome.activities, drawn, to);
            }
        }
    }
    None
}

// What happens

fn marks_in(
    alloc: Global,
    seen: &EventsRun,
    drawn: &[usize],
    entry: Option<usize>,
) -> Result<Vec<Event>, AllocError> {
    let mut events = Vec::new(alloc);
    let mut entries: usize = 0;
    for event in &seen.events {
        let is_entry = matches!(&event.what, What::Sends(_, _) | What::Polls);
        let stands_out = is_entry && entry == Some(entries);
        if is_entry {
            entries = entries.saturating_add(1);
        }
        add_event(alloc, &mut events, seen, drawn, event, stands_out)?;
    }
    Ok(events)
}

fn add_event(
    alloc: Global,
    events: &mut Vec<Event>,
    seen: &EventsRun,
    drawn: &[usize],
    event: &RunEvent,
    stands_out: bool,
) -> Result<(), AllocError> {
    let activities = &seen.outcome.activities;
    let Some(lane) = lane_at(activities, drawn, &event.by) else {
        return Ok(());
    };
    if let Some(mark) = mark_of(activities, drawn, &event.what) {
        events.push(Event {
            lane,
            mark,
            text: text_of(alloc, &event.what)?,
            stands_out,
        })?;
    }
    Ok(())
}

fn mark_of(activities: &[ActivityReport], drawn: &[usize], what: &What) -> Option<Mark> {
    match what {
        What::Creates(made) => Some(Mark::Makes(lane_at(activities, drawn, made)?)),
        What::Sends(to, _) => Some(Mark::Sends(lane_at(activities, drawn, to)?)),
        What::Serves(Some(_)) => Some(Mark::Serves),
        What::Serves(None) => None,
        What::Answers(_, _) => Some(Mark::Answers),
        What::Polls => Some(Mark::Polls),
        What::Prints(_) => Some(Mark::Prints),
        What::Fails(_) => Some(Mark::Fails),
    }
}

fn text_of(alloc: Global, what: &What) -> Result<String, AllocError> {
    let mut text = Telling::new(alloc);
    match what {
        What::Sends(_, asked) | What::Serves(Some(asked)) => text.push(asked.label.text.as_str()),
        What::Prints(line) => push_line(&mut text, line),
        What::Fails(fault) => text.push(fault_text(*fault)),
        What::Creates(_) | What::Serves(None) | What::Answers(_, _) | What::Polls => {}
    }
    text.whole()
}

//! The difference of two runs as people read it.

use crate::differences::first::{Comparison, Difference};
use crate::differences::lines::first_other_line;
use crate::differences::order::{Entry, OrderedRun};
use crate::text_pieces::{Telling, push_line};
use asp_model::{ActivityName, ActivityReport, Line, Reception};
use std::alloc::{AllocError, Global};
use std::cmp::Ordering;

/// Tells what a run is beside another one: the first request that came in another order, and the
/// first line of each activity that differs.
pub fn tell_difference(
    alloc: Global,
    comparison: Comparison,
    run: &OrderedRun,
    other: &OrderedRun,
) -> Result<String, AllocError> {
    let mut text = Telling::new(alloc);
    match comparison {
        Comparison::Same => text.push("the same run: logs and counts are equal\n"),
        Comparison::Further => {
            text.push("no request came in another order: one of the runs went further\n");
        }
        Comparison::Differs(difference) => push_first(&mut text, difference, run, other),
    }
    push_activities(
        &mut text,
        &run.outcome.activities,
        &other.outcome.activities,
    );
    text.whole()
}

// The first entry that differs, and what stands there in the other run.
fn push_first(text: &mut Telling, difference: Difference, run: &OrderedRun, other: &OrderedRun) {
    let Some(entry) = run.order.get(difference.index) else {
        return;
    };
    let number = difference.place.saturating_add(1);
    text.push("first difference: ");
    text.push_name(&entry.to);
    text.push(", entry ");
    text.push_count(number as u64);
    text.push(" of its log\n  report: ");
    push_entry(text, entry);
    text.push("\n  other: ");
    if let Some(entry) = entry_at(&other.order, &entry.to, difference.place) {
        push_entry(text, entry);
    }
    text.push("\n");
}

// The entry at a place of a log.
fn entry_at<'a>(order: &'a [Entry], to: &ActivityName, place: usize) -> Option<&'a Entry> {
    let mut left = place;
    for entry in order {
        if entry.to == *to {
            if left == 0 {
                return Some(entry);
            }
            left -= 1;
        }
    }
    None
}

fn push_entry(text: &mut Telling, entry: &Entry) {
    match &entry.noted {
        Reception::From(name) => {
            if let Some(label) = &entry.label {
                text.push(label.text.as_str());
                text.push(" ");
            }
            text.push("of ");
            text.push_name(name);
        }
        Reception::Poll => text.push("it asks what is pending"),
    }
}

// The activities of both, in the order of their names.
fn push_activities(text: &mut Telling, activities: &[ActivityReport], others: &[ActivityReport]) {
    let mut number = 0;
    let mut other = 0;
    while number < activities.len() && other < others.len() {
        match activities[number].name.cmp(&others[other].name) {
            Ordering::Less => {
                push_only(text, &activities[number].name, "report");
                number += 1;
            }
            Ordering::Greater => {
                push_only(text, &others[other].name, "other");
                other += 1;
            }
            Ordering::Equal => {
                push_lines(text, &activities[number], &others[other]);
                number += 1;
                other += 1;
            }
        }
    }
    push_rest(text, &activities[number..], "report");
    push_rest(text, &others[other..], "other");
}

fn push_rest(text: &mut Telling, activities: &[ActivityReport], which: &str) {
    for activity in activities {
        push_only(text, &activity.name, which);
    }
}

fn push_only(text: &mut Telling, name: &ActivityName, which: &str) {
    text.push_name(name);
    text.push(" is in ");
    text.push(which);
    text.push(" alone\n");
}

// The first line of an activity that differs.
fn push_lines(text: &mut Telling, activity: &ActivityReport, other: &ActivityReport) {
    let Some(place) = first_other_line(&activity.lines, &other.lines) else {
        return;
    };
    text.push_name(&activity.name);
    let number = place.saturating_add(1);
    text.push(", line ");
    text.push_count(number as u64);
    text.push("\n  report: ");
    push_line_at(text, &activity.lines, place);
    text.push("\n  other: ");
    push_line_at(text, &other.lines, place);
    text.push("\n");
}

// A line as reports have it, if there is one.
fn push_line_at(text: &mut Telling, lines: &[Line], place: usize) {
    match lines.get(place) {
        Some(line) => push_line(text, line),
        None => text.push("no line"),
    }
}

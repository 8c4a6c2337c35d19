//! The bars of services.

use crate::pictures::layout::{lane_at, last_of, place_at};
use crate::pictures::run::{Event, Mark, Rest, Run};
use crate::pictures::text::push_form;
use crate::text_pieces::Telling;

const BAR: &str =
    "<rect class=\"bar\" x=\"@\" y=\"@\" width=\"@\" height=\"@\" rx=\"3\"/>\n<text class=\"service\" x=\"@\" y=\"@\">~</text>\n";

// How many services of an activity are open behind an event of it, of so many before.
fn open_behind(mark: Mark, open: u64) -> u64 {
    match mark {
        Mark::Serves => open.saturating_add(1),
        Mark::Answers => open.saturating_sub(1),
        _ => open,
    }
}

// How many services of an activity are open before an event.
fn open_before(events: &[Event], lane: usize, number: usize) -> u64 {
    let mut open = 0;
    for before in 0..number.min(events.len()) {
        let event = &events[before];
        if event.lane == lane {
            open = open_behind(event.mark, open);
        }
    }
    open
}

// The event with which a service ends that began with an event.
fn answer_of(events: &[Event], lane: usize, number: usize) -> Option<usize> {
    let mut open = 1;
    for behind in number.saturating_add(1)..events.len() {
        let event = &events[behind];
        if event.lane == lane {
            open = open_behind(event.mark, open);
            if open == 0 {
                return Some(behind);
            }
        }
    }
    None
}

// Where a service stops that does not end: at a fault, or where the run does.
fn stop_of(run: &Run, places: &[u64], lane: usize) -> u64 {
    match run.lanes.get(lane) {
        Some(found) if matches!(found.rest, Rest::Failed) => {
            last_of(run, places, lane).saturating_add(10)
        }
        _ => place_at(places, run.events.len()),
    }
}

fn push_bar(out: &mut Telling, run: &Run, places: &[u64], number: usize, event: &Event) {
    let lane = event.lane;
    let end = match answer_of(&run.events, lane, number) {
        Some(answer) => place_at(places, answer),
        None => stop_of(run, places, lane),
    };
    let inset = open_before(&run.events, lane, number)
        .min(3)
        .saturating_mul(3);
    let left = place_at(places, number);
    let y = lane_at(lane);
    let top = y.saturating_sub(11).saturating_add(inset);
    let width = end.saturating_sub(left).max(6);
    let height = 22u64.saturating_sub(inset.saturating_mul(2));
    let text_left = left.saturating_add(4);
    let text_top = y.saturating_add(4);
    push_form(
        out,
        BAR,
        &[left, top, width, height, text_left, text_top],
        &event.text,
    );
}

/// Adds the bars of all services, as they begin: each up to its answer, or to the end of the run.
pub fn push_bars(out: &mut Telling, run: &Run, places: &[u64]) {
    for number in 0..run.events.len() {
        let event = &run.events[number];
        if let Mark::Serves = event.mark {
            push_bar(out, run, places, number, event);
        }
    }
}

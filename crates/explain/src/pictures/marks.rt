//! What stands at the lines: arrows of requests, who is made, what is printed.

use crate::pictures::layout::{lane_at, place_at};
use crate::pictures::run::{Event, Mark, Run};
use crate::pictures::text::push_form;
use crate::text_pieces::Telling;

// An arrow from one line to another, with its label behind it.
const ARROW: &str =
    "<line class=\"arrow\" x1=\"@\" y1=\"@\" x2=\"@\" y2=\"@\" marker-end=\"url(#head)\"/>\n<text class=\"label\" x=\"@\" y=\"@\">~</text>\n";

// One that stands out.
const OTHER_ARROW: &str =
    "<line class=\"other\" x1=\"@\" y1=\"@\" x2=\"@\" y2=\"@\" marker-end=\"url(#stop)\"/>\n<text class=\"label\" x=\"@\" y=\"@\">~</text>\n";

// A request that an activity sends to itself.
const LOOP: &str =
    "<path class=\"arrow\" d=\"M @ @ C @ @ @ @ @ @\" marker-end=\"url(#head)\"/>\n<text class=\"label\" x=\"@\" y=\"@\">~</text>\n";

// One that stands out.
const OTHER_LOOP: &str =
    "<path class=\"other\" d=\"M @ @ C @ @ @ @ @ @\" marker-end=\"url(#stop)\"/>\n<text class=\"label\" x=\"@\" y=\"@\">~</text>\n";

const MADE: &str =
    "<line class=\"made\" x1=\"@\" y1=\"@\" x2=\"@\" y2=\"@\"/>\n<circle class=\"begin\" cx=\"@\" cy=\"@\" r=\"3\"/>\n";

const POLLED: &str = "<circle class=\"poll ~\" cx=\"@\" cy=\"@\" r=\"4\"/>\n";

const PRINTED: &str =
    "<circle class=\"printed\" cx=\"@\" cy=\"@\" r=\"3\"/>\n<text class=\"print\" x=\"@\" y=\"@\">~</text>\n";

const FAILED: &str =
    "<path class=\"fault\" d=\"M @ @ L @ @ M @ @ L @ @\"/>\n<text class=\"bad\" x=\"@\" y=\"@\">~</text>\n";

// From a line to the label of an arrow that leads down, and of one that leads up.
const DOWN: u64 = 26;

const UP: u64 = 18;

fn push_arrow(out: &mut Telling, event: &Event, at: u64, y: u64, to: usize) {
    let end = lane_at(to);
    let (end, top) = if to > event.lane {
        (end.saturating_sub(11), y.saturating_add(DOWN))
    } else {
        (end.saturating_add(11), y.saturating_sub(UP))
    };
    let form = if event.stands_out { OTHER_ARROW } else { ARROW };
    push_form(
        out,
        form,
        &[at, y, at, end, at.saturating_add(5), top],
        &event.text,
    );
}

fn push_loop(out: &mut Telling, event: &Event, at: u64, y: u64) {
    let up = y.saturating_sub(22);
    let end = at.saturating_add(10);
    let left = at.saturating_add(12);
    let top = y.saturating_sub(14);
    let form = if event.stands_out { OTHER_LOOP } else { LOOP };
    push_form(
        out,
        form,
        &[at, y, at, up, end, up, end, y, left, top],
        &event.text,
    );
}

fn push_failed(out: &mut Telling, event: &Event, at: u64, y: u64) {
    let left = at.saturating_sub(5);
    let right = at.saturating_add(5);
    let high = y.saturating_sub(5);
    let low = y.saturating_add(5);
    let text_left = at.saturating_add(9);
    let top = y.saturating_sub(14);
    push_form(
        out,
        FAILED,
        &[
            left, high, right, low, left, low, right, high, text_left, top,
        ],
        &event.text,
    );
}

fn push_mark(out: &mut Telling, event: &Event, at: u64) {
    let y = lane_at(event.lane);
    match event.mark {
        Mark::Makes(to) => {
            let end = lane_at(to);
            push_form(out, MADE, &[at, y, at, end, at, end], "");
        }
        Mark::Sends(to) => {
            if to == event.lane {
                push_loop(out, event, at, y);
            } else {
                push_arrow(out, event, at, y, to);
            }
        }
        Mark::Serves | Mark::Answers => {}
        Mark::Polls => {
            let class = if event.stands_out { "other" } else { "arrow" };
            push_form(out, POLLED, &[at, y], class);
        }
        Mark::Prints => push_form(
            out,
            PRINTED,
            &[at, y, at.saturating_add(6), y.saturating_sub(14)],
            &event.text,
        ),
        Mark::Fails => push_failed(out, event, at, y),
    }
}

/// Adds what stands at the lines.
pub fn push_marks(out: &mut Telling, run: &Run, places: &[u64]) {
    for number in 0..run.events.len() {
        push_mark(out, &run.events[number], place_at(places, number));
    }
}

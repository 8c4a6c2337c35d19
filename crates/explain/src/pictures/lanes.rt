//! The lines of the activities, and how they end.

use crate::pictures::layout::{begin_of, lane_at, last_of, place_at};
use crate::pictures::run::{Lane, Rest, Run, is_in_circle};
use crate::pictures::text::push_form;
use crate::text_pieces::Telling;

const LANE: &str =
    "<line class=\"line\" x1=\"@\" y1=\"@\" x2=\"@\" y2=\"@\"/>\n<text class=\"name\" x=\"80\" y=\"@\">~</text>\n";

const REST: &str = "<line class=\"~\" x1=\"@\" y1=\"@\" x2=\"@\" y2=\"@\"/>\n";

const END: &str = "<text class=\"~\" x=\"@\" y=\"@\">";

// An arrow behind the lines, from one who waits to whom it waits for.
const ARROW: &str =
    "<path class=\"circle\" d=\"M @ @ C @ @ @ @ @ @\" marker-end=\"url(#stop)\"/>\n";

// The class of the rest of a line, behind its last event; none where it has no rest.
fn rest_class(rest: Rest, circle: bool) -> &'static str {
    match rest {
        Rest::Done | Rest::Failed => "",
        Rest::Serving => "idle",
        Rest::Running | Rest::Further => "line",
        Rest::Awaits(_) => { if circle { "circle" } else { "waits" } }
    }
}

// The form of what is written behind a line.
fn end_form(rest: Rest) -> &'static str {
    match rest {
        Rest::Done => "done</text>\n",
        Rest::Failed => "fault</text>\n",
        Rest::Serving => "serving</text>\n",
        Rest::Running => "running</text>\n",
        Rest::Further => "..</text>\n",
        Rest::Awaits(Some(_)) => "waits for ~</text>\n",
        Rest::Awaits(None) => "waits</text>\n",
    }
}

// The name of whom an activity waits for.
fn awaited_in(run: &Run, rest: Rest) -> &str {
    match rest {
        Rest::Awaits(Some(to)) => match run.lanes.get(to) {
            Some(lane) => &lane.name,
            None => "?",
        },
        _ => "",
    }
}

fn push_arrow(out: &mut Telling, end: u64, from: usize, to: usize) {
    let start = lane_at(from);
    let stop = lane_at(to);
    let far = end.saturating_add(44);
    push_form(
        out,
        ARROW,
        &[end, start, far, start, far, stop, end, stop],
        "",
    );
}

fn push_lane(out: &mut Telling, run: &Run, places: &[u64], number: usize, lane: &Lane) {
    let y = lane_at(number);
    let begin = begin_of(run, places, number);
    let last = last_of(run, places, number);
    push_form(
        out,
        LANE,
        &[begin, y, last, y, y.saturating_add(4)],
        &lane.name,
    );
}

/// Adds the lines of all activities up to their last events, with their names.
pub fn push_lanes(out: &mut Telling, run: &Run, places: &[u64]) {
    for number in 0..run.lanes.len() {
        push_lane(out, run, places, number, &run.lanes[number]);
    }
}

fn push_end(out: &mut Telling, run: &Run, places: &[u64], number: usize, rest: Rest) {
    let y = lane_at(number);
    let end = place_at(places, run.events.len());
    let circle = is_in_circle(&run.lanes, number);
    let class = rest_class(rest, circle);
    if !class.is_empty() {
        let last = last_of(run, places, number);
        push_form(out, REST, &[last, y, end, y], class);
    }
    let bad = if circle { "bad" } else { "end" };
    push_form(
        out,
        END,
        &[end.saturating_add(46), y.saturating_add(4)],
        bad,
    );
    push_form(out, end_form(rest), &[], awaited_in(run, rest));
    match rest {
        Rest::Awaits(Some(to)) if circle => push_arrow(out, end, number, to),
        _ => {}
    }
}

/// Adds how the lines of all activities end.
pub fn push_ends(out: &mut Telling, run: &Run, places: &[u64]) {
    for number in 0..run.lanes.len() {
        push_end(out, run, places, number, run.lanes[number].rest);
    }
}

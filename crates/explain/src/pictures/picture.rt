//! The whole picture.

ghost use Rattle.std.specs.Prelude.{IsTrue};
ghost use Rattle.explain.specs.Large.{AreMany};

use crate::pictures::bars::push_bars;
use crate::pictures::lanes::{push_ends, push_lanes};
use crate::pictures::layout::{LANE, lane_at, place_at, places_of};
use crate::pictures::marks::push_marks;
use crate::pictures::run::Run;
use crate::pictures::text::{push_form, push_whole};
use crate::text_pieces::Telling;
use std::alloc::{AllocError, Global};

/// A picture has no more lines.
pub const MOST_LANES: usize = 60;
/// A picture has no more events.
pub const MOST_EVENTS: usize = 2000;

const STYLE: &str =
    "<style>\ntext { font: 11px sans-serif; fill: #222 }\n.title { font-size: 13px; font-weight: bold }\n.name { text-anchor: end; font-weight: bold }\n.line { stroke: #555; stroke-width: 1.5 }\n.idle { stroke: #bbb; stroke-dasharray: 1 4 }\n.waits { stroke: #d17a00; stroke-width: 2; stroke-dasharray: 6 4 }\n.circle { stroke: #c00000; stroke-width: 2; stroke-dasharray: 6 4; fill: none }\n.bar { fill: #d6e6fb; stroke: #5f8fd0 }\n.service { fill: #1f4e8c }\n.arrow { stroke: #333; fill: none }\n.other { stroke: #c00000; stroke-width: 2; fill: none }\n.label { fill: #333; font-style: italic }\n.made { stroke: #999; stroke-dasharray: 2 3 }\n.begin { fill: #555 }\n.poll { fill: #fff }\n.printed { fill: #1d7a1d }\n.print { fill: #1d7a1d }\n.fault { stroke: #c00000; stroke-width: 2 }\n.bad { fill: #c00000 }\n.end { fill: #777 }\n</style>\n<defs>\n<marker id=\"head\" markerWidth=\"8\" markerHeight=\"8\" refX=\"7\" refY=\"4\" orient=\"auto\"><path d=\"M 0 0 L 8 4 L 0 8 z\" fill=\"#333\"/></marker>\n<marker id=\"stop\" markerWidth=\"8\" markerHeight=\"8\" refX=\"7\" refY=\"4\" orient=\"auto\" markerUnits=\"userSpaceOnUse\"><path d=\"M 0 0 L 8 4 L 0 8 z\" fill=\"#c00000\"/></marker>\n</defs>\n";

const SIZE: &str =
    "<svg xmlns=\"http://www.w3.org/2000/svg\" width=\"@\" height=\"@\" viewBox=\"0 0 @ @\">\n";

const GROUND: &str =
    "<rect width=\"@\" height=\"@\" fill=\"#fff\"/>\n<text class=\"title\" x=\"16\" y=\"26\">";

const EVENTS: &str = ": events @ to @ of @</text>\n";

const NO_EVENTS: &str = ": no events from @ on, of @</text>\n";

/// Which events are drawn: so many of a file's, from a number on, of all.
#[derive(Clone, Copy)]
pub struct Title<'a> {
    pub file: &'a str,
    pub from: u64,
    pub count: u64,
    pub all: u64,
}

/// Whether there are more lines than are drawn, or more events.
pub fn are_many(lanes: usize, events: usize) -> bool
    ensures { IsTrue result → AreMany lanes events }
{
    lanes > MOST_LANES || events > MOST_EVENTS
}

/// The picture of a run, as the text of an SVG file.
pub fn picture_of(alloc: Global, title: Title, run: &Run) -> Result<String, AllocError> {
    let places = places_of(alloc, &run.events)?;
    let mut out = Telling::new(alloc);
    push_head(&mut out, run, place_at(&places, run.events.len()));
    push_title(&mut out, title);
    push_lanes(&mut out, run, &places);
    push_bars(&mut out, run, &places);
    push_ends(&mut out, run, &places);
    push_marks(&mut out, run, &places);
    out.push("</svg>\n");
    out.whole()
}

// Its size and its style, where the lines end there.
fn push_head(out: &mut Telling, run: &Run, end: u64) {
    let width = end.saturating_add(170);
    let height = lane_at(run.lanes.len()).saturating_add(LANE / 2);
    push_form(out, SIZE, &[width, height, width, height], "");
    out.push(STYLE);
    push_form(out, GROUND, &[width, height], "");
}

// Which events these are, of how many.
fn push_title(out: &mut Telling, title: Title) {
    push_whole(out, title.file);
    if title.count == 0 {
        push_form(out, NO_EVENTS, &[title.from, title.all], "");
    } else {
        let last = title.from.saturating_add(title.count - 1);
        push_form(out, EVENTS, &[title.from, last, title.all], "");
    }
}

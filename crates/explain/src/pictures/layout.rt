//! Where lines and events stand.

use crate::pictures::run::{Event, Mark, Run};
use crate::pictures::text::shown_len;
use std::alloc::{AllocError, Global};

/// Where the lines begin.
pub const LEFT: u64 = 90;
/// Where the first line is.
pub const TOP: u64 = 70;
/// From one line to the next.
pub const LANE: u64 = 48;

/// How far down a line is.
pub fn lane_at(lane: usize) -> u64 {
    (lane as u64).saturating_mul(LANE).saturating_add(TOP)
}

// How much room an event needs to its right, beside its text.
fn least_room(mark: Mark) -> u64 {
    match mark {
        Mark::Makes(_) | Mark::Fails => 18,
        Mark::Sends(_) | Mark::Polls | Mark::Prints => 14,
        Mark::Serves | Mark::Answers => 12,
    }
}

fn room_of(event: &Event) -> u64 {
    shown_len(&event.text)
        .saturating_mul(7)
        .saturating_add(least_room(event.mark))
}

/// Where the events stand, from the left, and last where the run ends.
pub fn places_of(alloc: Global, events: &[Event]) -> Result<Vec<u64>, AllocError> {
    let mut places = Vec::with_capacity(alloc, events.len())?;
    let mut at: u64 = LEFT.saturating_add(16);
    for event in events {
        places.push(at)?;
        at = at.saturating_add(room_of(event));
    }
    places.push(at.saturating_add(16))?;
    Ok(places)
}

/// Where an event stands, or the end of the run.
pub fn place_at(places: &[u64], number: usize) -> u64 {
    match places.get(number) {
        Some(place) => *place,
        None => match places.last() {
            Some(place) => *place,
            None => LEFT,
        },
    }
}

/// Where the line of an activity begins: where it is made, or at the left.
pub fn begin_of(run: &Run, places: &[u64], lane: usize) -> u64 {
    for number in 0..run.events.len() {
        if let Mark::Makes(made) = run.events[number].mark {
            if made == lane {
                return place_at(places, number);
            }
        }
    }
    LEFT
}

/// Where the last event of an activity stands, or its beginning.
pub fn last_of(run: &Run, places: &[u64], lane: usize) -> u64 {
    let mut last = begin_of(run, places, lane);
    for number in 0..run.events.len() {
        if run.events[number].lane == lane {
            last = last.max(place_at(places, number));
        }
    }
    last
}

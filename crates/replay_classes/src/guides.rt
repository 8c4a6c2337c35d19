//! Which request is to be sent next. It leads a run on, and no clause speaks of it.

ghost use Rattle.std.specs.Prelude.{◌<◌, IfSome, length};

use crate::sendings::{copy_of, is_to};
use asp_model::ActivityName;
use class_search::{FoundEnd, Sending};
use std::alloc::{AllocError, Global};

// None of those before it goes to the same log.
fn is_first(guide: &[Sending], place: usize) -> bool
    requires within { place < length guide.now }
{
    for before in 0..place {
        if is_to(&guide[before], &guide[place].to, guide[place].class) {
            return false;
        }
    }
    true
}

/// The place of what one is to send next to another, if it is next in its log.
pub fn next_place(guide: &[Sending], by: &ActivityName, to: &ActivityName) -> Option<usize>
    ensures within { IfSome result (λ place. place < length guide.now) }
{
    for place in 0..guide.len() {
        if guide[place].to == *to && guide[place].by == *by {
            return if is_first(guide, place) {
                Some(place)
            } else {
                None
            };
        }
    }
    None
}

/// What was sent in a run. Behind one that nobody sends, at a place of one of its logs, nothing of
/// that log is next.
pub fn cut_guide(
    alloc: Global,
    end: &FoundEnd,
    to: &ActivityName,
    class: u32,
    place: usize,
) -> Result<Vec<Sending>, AllocError> {
    let mut guide = Vec::new(alloc);
    let mut before: usize = 0;
    for sending in &end.sendings {
        if is_to(sending, to, class) {
            if before == place {
                guide.push(sending_of_nobody(alloc, to, class)?)?;
            }
            before = before.saturating_add(1);
        }
        guide.push(copy_of(alloc, sending)?)?;
    }
    Ok(guide)
}

// No activity has the name without numbers.
fn sending_of_nobody(alloc: Global, to: &ActivityName, class: u32) -> Result<Sending, AllocError> {
    Ok(Sending {
        by: ActivityName::of_path(Vec::new(alloc)),
        to: to.copy(alloc)?,
        class,
    })
}

//! A page of the events of a run.

ghost use Rattle.std.specs.Prelude.{◌≤◌};
ghost use Rattle.asp_explain.specs.declared.page.TheConstants.{MOST_EVENTS};

/// Which events are asked for.
#[derive(Clone, Copy)]
pub struct Page<'a> {
    /// The name of an activity, or all.
    pub activity: Option<&'a str>,
    /// From this one on, counted from 1.
    pub from: u64,
    /// At most so many.
    pub most: u64,
    ghost counted: { (1 ≤ from) × (from ≤ MOST_EVENTS) × (most ≤ MOST_EVENTS) },
}

/// The greatest number of an event that is taken.
pub const MOST_EVENTS: u64 = 99_999_999;

/// So many events are told where the words say nothing else.
pub const USUAL_EVENTS: u64 = 1000;

/// A picture has at most 2000 events: one more shows that there are too many.
pub const DRAWN_EVENTS: u64 = 2001;

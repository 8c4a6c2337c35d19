//! Where a walk ends.

use asp_model::FutureName;

/// Where the walk from a future ends.
#[derive(Clone, Copy, Debug)]
pub enum Chase<'a> {
    /// At this future, whose value has a root that is no future.
    Value(&'a FutureName),
    /// At this future, which has no value.
    Unfilled(&'a FutureName),
    /// Nowhere: this is the least filled future whose walk comes into the same cycle.
    Cycle(&'a FutureName),
}

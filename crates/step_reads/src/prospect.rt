//! What a redex comes to, as far as it is told without a change.

use asp_model::{ActivityName, Fault, FutureName};

/// What a redex comes to.
#[derive(Clone, Copy)]
pub enum Prospect<'a> {
    /// A reduction that needs no other activity, or makes one.
    Goes,
    /// A request to this activity.
    GoesTo(&'a ActivityName),
    /// A fault.
    Stops(Fault),
    /// A `serve`.
    Asks,
    /// A poll.
    Polls,
    /// The value of a future is needed, which has none.
    Awaits(&'a FutureName),
    /// No redex of a checked program comes to this.
    Still,
}

//! What an activity does next.

use asp_model::{ActivityName, Fault, FutureName};

/// What an activity does next.
#[derive(Clone, Copy)]
pub enum Outlook<'a> {
    /// It has a reduction that sends nothing and does not ask what is pending.
    Steps,
    /// It sends a request to the activity of this name.
    Sends(&'a ActivityName),
    /// It asks what is pending.
    Polls,
    /// It needs the value of a future that has none.
    Awaits(&'a FutureName),
    /// It stands at a fault.
    Faulted(Fault),
    /// It stands at a `serve` that no pending request matches.
    Serving,
    /// Its term is a place, and no service is suspended.
    Done,
}

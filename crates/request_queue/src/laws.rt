//! What is pending, where an activity keeps all requests that it received and the numbers of those
//! that were served. Each law is the contract of a function that does nothing.

ghost use Rattle.request_queue.specs.Pending.{ArrivalsWait, MatchesArePending, ServedLeave};

/// The oldest request that was not served and has one of the labels is the oldest such among the
/// pending ones.
pub fn matches_are_pending()
    ensures { MatchesArePending }
{}

/// A request that arrives waits behind the others.
pub fn arrivals_wait()
    ensures { ArrivalsWait }
{}

/// A request that is served leaves, and the others keep their order and their numbers.
pub fn served_leave()
    ensures { ServedLeave }
{}

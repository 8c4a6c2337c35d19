//! What is accepted.

ghost use Rattle.trace_check.specs.Checks.{EndedAreAccepted};

/// A lawful journal whose run has ended is refused by want of memory alone.
pub fn ended_are_accepted()
    ensures accepted { EndedAreAccepted }
{}

//! Complete families, and the offers by which one is seen to be complete.

ghost use Rattle.law_families.specs.Complete.{FittingAreWithin, OffersShow, OneSenderIsComplete, RunsEnd, RunsLeadToEnds, StuckRunsAreEnds};

/// Each run of the program, at each point, leads on to one of the ends.
pub fn runs_lead_to_ends()
    ensures { RunsLeadToEnds }
{}

/// Each run of the program that is stuck is one of them.
pub fn stuck_runs_are_ends()
    ensures { StuckRunsAreEnds }
{}

/// No run takes more reductions than the longest of them.
pub fn runs_end()
    ensures { RunsEnd }
{}

/// Whatever fits the program is within an end, and is one of the ends where nobody can step.
pub fn fitting_are_within()
    ensures { FittingAreWithin }
{}

/// A stuck run whose logs are narrow, each of one sender and without a poll, is complete alone.
pub fn one_sender_is_complete()
    ensures { OneSenderIsComplete }
{}

/// Whoever enters something in a log intends to send there, or to poll, and leaves each other log
/// as it is.
pub fn offers_show()
    ensures { OffersShow }
{}

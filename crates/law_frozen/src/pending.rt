//! Pending requests.

ghost use Rattle.law_frozen.specs.Pending.{
  ArrivalsWait,
  MatchesArePending,
  ServedLeave,
  ServesAreSame,
};

/// The oldest match is the oldest of the pending requests with one of the labels.
pub fn matches_are_pending()
    ensures { MatchesArePending }
{}

/// One more request is the last of the pending ones.
pub fn arrivals_wait()
    ensures { ArrivalsWait }
{}

/// One more served request is no longer pending.
pub fn served_leave()
    ensures { ServedLeave }
{}

/// Where the same requests are pending, the same one is served, and the same ones are left.
pub fn serves_are_same()
    ensures { ServesAreSame }
{}

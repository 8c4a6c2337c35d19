//! Runs with compatible lists join, and one sender in each log, without a poll, is enough.

ghost use Rattle.law_steps.specs.Joins.{JoinedFits, OneSenderBounds, OneSenderEnds, StuckIsJoined, StuckRunsAgree};

/// The joined lists and counts of two runs fit.
pub fn joined_fits()
    ensures { JoinedFits }
{}

/// Where a run is stuck, its lists and counts are the joined ones.
pub fn stuck_is_joined()
    ensures { StuckIsJoined }
{}

/// Two stuck runs with compatible lists end in one configuration.
pub fn stuck_runs_agree()
    ensures { StuckRunsAgree }
{}

/// Beside a stuck run whose logs are narrow, each of one sender and without a poll, the lists of
/// each other run are beginnings of its lists.
pub fn one_sender_bounds()
    ensures { OneSenderBounds }
{}

/// Each other run that is stuck ends as it does.
pub fn one_sender_ends()
    ensures { OneSenderEnds }
{}

//! Leases, commits and a delivery.

ghost use Rattle.worked_rows.specs.Lending.{CommitsTwo, DeliversAnswer, IsGranted, LacksAnswer, PollsInCommits, RefusesEntries};

/// A grant leaves the budget, and what a commit does not use goes back.
pub fn grants()
    ensures commit { CommitsTwo }
    ensures most { IsGranted 100 64 36 }
    ensures rest { IsGranted 10 10 0 }
{}

/// Entries whose condition does not hold.
pub fn refused_entries()
    ensures { RefusesEntries }
{}

/// A run with the delivery of an answer, and without it.
pub fn delivered_answer()
    ensures delivered { DeliversAnswer }
    ensures owed { LacksAnswer }
{}

/// A poll ends a commit, and stands in the log behind what came while the activity was out.
pub fn polls_in_commits()
    ensures polls { PollsInCommits }
{}

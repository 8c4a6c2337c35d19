//! What a lease did that comes back, by its notes.

ghost use Rattle.law_peeks.specs.Leases.{
  ReadsAndActsAreCommits,
  ReadsAndActsAreEvents,
  ReadsAreCommits,
  ReadsAreEvents,
};

/// It is a commit, with a need for each value that no contraction used.
pub fn reads_are_commits()
    ensures { ReadsAreCommits }
{}

/// With the reduction that the activity intends then, it is the commit alone.
pub fn reads_and_acts_are_commits()
    ensures { ReadsAndActsAreCommits }
{}

/// The activity receives each value that is noted, in order.
pub fn reads_are_events()
    ensures { ReadsAreEvents }
{}

/// Those of the effect follow, where one is done.
pub fn reads_and_acts_are_events()
    ensures { ReadsAndActsAreEvents }
{}

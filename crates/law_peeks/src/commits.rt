//! What a lease did is the entries that its commit makes.

ghost use Rattle.law_peeks.specs.Commits.{MovesAndActsAreCommits, MovesAreCommits};

/// The commit of the contractions, and behind it a need for each value that none of them used.
pub fn moves_are_commits()
    ensures { MovesAreCommits }
{}

/// With the reduction that the activity intends then, it is the commit alone.
pub fn moves_and_acts_are_commits()
    ensures { MovesAndActsAreCommits }
{}

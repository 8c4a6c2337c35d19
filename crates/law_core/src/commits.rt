//! What a lease took is the entry that its commit makes.

ghost use Rattle.law_core.specs.Commits.{ActsAreCommits, RunsAreCommits};

/// The contractions of a lease within its grant are a commit.
pub fn runs_are_commits()
    ensures { RunsAreCommits }
{}

/// And so are they with the reduction that the activity intends then.
pub fn acts_are_commits()
    ensures { ActsAreCommits }
{}

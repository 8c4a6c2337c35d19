//! The events of a commit.

ghost use Rattle.law_core.specs.Events.{ActsAreEvents, RunsAreSilent};

/// The contractions of a lease have none.
pub fn runs_are_silent()
    ensures { RunsAreSilent }
{}

/// With the reduction that the activity intends then, where it has no need, they are those of its
/// effect.
pub fn acts_are_events()
    ensures { ActsAreEvents }
{}

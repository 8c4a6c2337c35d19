//! Least cuts, and how a search on demand finds them.

ghost use Rattle.law_cuts.specs.Cuts.{CutsAreFound, CutsAreOne};
ghost use Rattle.law_cuts.specs.Searches.{GoalIsNeeded, NeededSteps, StartIsOnWay, WantedAreNeeded, WantsEnd, WayEnds};

/// Where logs and counts fit, and the count is reached, there is a least cut.
pub fn cuts_are_found()
    ensures { CutsAreFound }
{}

/// There is no other.
pub fn cuts_are_one()
    ensures { CutsAreOne }
{}

/// A search begins at the start.
pub fn start_is_on_way()
    ensures { StartIsOnWay }
{}

/// The activity that is sought is needed until it has its reductions.
pub fn goal_is_needed()
    ensures { GoalIsNeeded }
{}

/// A step of one who is needed stays on the way.
pub fn needed_steps()
    ensures { NeededSteps }
{}

/// Where one is needed that cannot step, whom it wants is needed.
pub fn wanted_are_needed()
    ensures { WantedAreNeeded }
{}

/// Wants do not go round a circle, so no activity is wanted for its own sake.
pub fn wants_end()
    ensures { WantsEnd }
{}

/// A point on the way that has the count is the least cut.
pub fn way_ends()
    ensures { WayEnds }
{}

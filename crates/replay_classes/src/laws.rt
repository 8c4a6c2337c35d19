//! What a complete search by classes says of each run.

ghost use Rattle.replay_classes.specs.Complete.{FittingAreAlike};

/// Each run of the program is within the longest of the runs, and if it has ended it has the outcome
/// of one of them, but for the logs.
pub fn fitting_are_alike()
    ensures { FittingAreAlike }
{}

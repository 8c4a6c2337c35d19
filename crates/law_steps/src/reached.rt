//! How configurations are reached.

ghost use Rattle.law_steps.specs.Reached.{MovesGoOn, RunsGoOn, StartIsReached};

/// The start of a program is reached.
pub fn start_is_reached()
    ensures { StartIsReached }
{}

/// What a move leads to from a reached configuration is reached.
pub fn moves_go_on()
    ensures { MovesGoOn }
{}

/// What a run leads to from a reached configuration is reached.
pub fn runs_go_on()
    ensures { RunsGoOn }
{}

//! The events of these entries.

ghost use Rattle.law_peeks.specs.Events.{MovesAndActsAreEvents, MovesAreEvents};

/// The activity receives each value that was read, in order.
pub fn moves_are_events()
    ensures { MovesAreEvents }
{}

/// Those of the effect follow, where one is done.
pub fn moves_and_acts_are_events()
    ensures { MovesAndActsAreEvents }
{}

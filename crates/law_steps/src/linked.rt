//! What stands in cells is there, so that each intent without lists is a step.

ghost use Rattle.law_steps.specs.Linked.{AwaitedAreBegun, CellsAreLinked, IntentsStep, StuckIsStill, TargetsAreThere};

/// The activities of references are there, and the futures in cells were begun.
pub fn cells_are_linked()
    ensures { CellsAreLinked }
{}

/// Who is sent to is there.
pub fn targets_are_there()
    ensures { TargetsAreThere }
{}

/// What is awaited was begun.
pub fn awaited_are_begun()
    ensures { AwaitedAreBegun }
{}

/// Without lists, who intends to act steps.
pub fn intends_step()
    ensures { IntentsStep }
{}

/// A configuration is stuck exactly where nobody steps without lists.
pub fn stuck_is_still()
    ensures { StuckIsStill }
{}

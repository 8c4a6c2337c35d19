//! When a verdict is told, and which.

ghost use Rattle.law_core.specs.Verdicts.{VerdictsAreHeld, VerdictsAreTold};

/// Where nobody is out, nothing is owed and nobody is ready, it is that of the configuration.
pub fn verdicts_are_told()
    ensures { VerdictsAreTold }
{}

/// Else there is none.
pub fn verdicts_are_held()
    ensures { VerdictsAreHeld }
{}

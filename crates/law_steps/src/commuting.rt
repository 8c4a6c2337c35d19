//! Steps of two activities in either order.

ghost use Rattle.law_steps.specs.Commuting.{FreeStepsCommute, StepsCommute};

/// Steps of two activities with the same lists commute.
pub fn steps_commute()
    ensures { StepsCommute }
{}

/// Steps of two activities without lists commute, where no log grows in both.
pub fn free_steps_commute()
    ensures { FreeStepsCommute }
{}

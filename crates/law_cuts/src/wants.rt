//! Whom an activity needs that cannot step.

ghost use Rattle.law_cuts.specs.Wants.{WantsStay};

/// While another steps than the one it needs, an activity cannot step, and needs that one.
pub fn wants_stay()
    ensures { WantsStay }
{}

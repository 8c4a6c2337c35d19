//! A law of differences, without code.

ghost use Rattle.explain.specs.Differences.{AgreeingAreCompatible};

/// Where no entry of a run differs, of the two logs of each activity one begins with the other.
pub fn agreeing_are_compatible()
    ensures { AgreeingAreCompatible }
{}

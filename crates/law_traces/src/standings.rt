//! Where runs stand.

ghost use Rattle.law_traces.specs.Standings.{VerdictsAreEnds};

/// Where a core tells its verdict, the run has ended.
pub fn verdicts_are_ends()
    ensures ends { VerdictsAreEnds }
{}

//! Configurations that differ in what was served alone.

ghost use Rattle.law_frozen.specs.Same.{MovesKeepSame, SameIsEquivalence, SameShowsSame};

/// To differ in what was served alone is an equivalence.
pub fn same_is_equivalence()
    ensures { SameIsEquivalence }
{}

/// Each step and each delivery of the one can be made in the other, and both still differ so.
pub fn moves_keep_same()
    ensures { MovesKeepSame }
{}

/// Both have the same outcome, with every state, and the same logs and counts.
pub fn same_shows_same()
    ensures { SameShowsSame }
{}

//! What is owed next.

ghost use Rattle.law_core.specs.Owed.{EdgesAreFirst, EdgesAreNext, NeedsAreFirst};

/// The need of the least number that has one is owed next.
pub fn needs_are_first()
    ensures { NeedsAreFirst }
{}

/// Without needs it is the first edge.
pub fn edges_are_next()
    ensures { EdgesAreNext }
{}

/// The first edge is that at the least place whose edge is owed to one that is in.
pub fn edges_are_first()
    ensures { EdgesAreFirst }
{}

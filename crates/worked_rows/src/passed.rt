//! The edges of a future that passes three activities unread.

ghost use Rattle.worked_rows.specs.Passed.{DeliversAll, HandsOn, HasTenEdges, OwedWhenDelivered, ReadsItself};

/// Ten edges, each delivered as soon as its value is there.
pub fn unread_edges()
    ensures run { HandsOn }
    ensures edges { HasTenEdges }
    ensures delivered { DeliversAll }
    ensures owed { OwedWhenDelivered }
    ensures lazy { ReadsItself }
{}

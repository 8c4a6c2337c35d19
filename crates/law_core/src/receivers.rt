//! What a delivery makes of its receiver's rank.

ghost use Rattle.law_core.specs.Receivers.{DeliveriesKeepRank, NeedsKeepRank};

/// A delivery along an edge leaves the rank of its receiver, if no value was owed to it.
pub fn deliveries_keep_rank()
    ensures { DeliveriesKeepRank }
{}

/// A delivery at a place where the value is needed leaves the rank of its receiver, if no value was
/// owed to it.
pub fn needs_keep_rank()
    ensures { NeedsKeepRank }
{}

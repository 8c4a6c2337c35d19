//! The edges that a lawful history leaves.

ghost use Rattle.law_journals.specs.EdgesKept.{DeliveriesUpdate, EdgesAreBounded, EdgesAreDistinct, EdgesAreKnown, ParcelsHoldLess};

/// Edges are pairwise different, none goes from an activity to itself, and so for those that were
/// delivered, which are kept.
pub fn edges_are_distinct()
    ensures { EdgesAreDistinct }
{}

/// Each edge is of a future that was begun, between two activities that are there.
pub fn edges_are_known()
    ensures { EdgesAreKnown }
{}

/// There are no more edges than futures times ordered pairs of different activities.
pub fn edges_are_bounded()
    ensures { EdgesAreBounded }
{}

/// A parcel gives no edge of a future that its store does not hold.
pub fn parcels_hold_less()
    ensures { ParcelsHoldLess }
{}

/// A delivery along an edge leaves no place that holds its future.
pub fn deliveries_update()
    ensures { DeliveriesUpdate }
{}

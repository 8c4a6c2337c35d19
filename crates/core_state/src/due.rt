//! What may be delivered, by what is owed.

ghost use Rattle.core_state.specs.Due.{DueEdgesArePassed, OwedMayBeDelivered};

/// An edge that is due was passed to one that is in, and its future has a value.
pub fn due_edges_are_passed()
    ensures { DueEdgesArePassed }
{}

/// What is owed next may be delivered.
pub fn owed_may_be_delivered()
    ensures { OwedMayBeDelivered }
{}

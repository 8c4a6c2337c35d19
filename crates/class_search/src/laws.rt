//! Ends found by the search.

ghost use Rattle.class_search.specs.Found.{ClosedIsComplete};

/// If all that ends offer leads to one of them, they are complete by classes.
pub fn closed_is_complete()
    ensures { ClosedIsComplete }
{}

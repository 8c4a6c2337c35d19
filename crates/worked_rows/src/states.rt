//! Reports with the states of activities.

ghost use Rattle.worked_rows.specs.States.{CirclingObjectShows, CirclingShows, KeepingShows, SharingShows};

/// A future that is its own value, and an object that holds itself.
pub fn circling_state()
    ensures future { CirclingShows }
    ensures object { CirclingObjectShows }
{}

/// Two fields that share one object.
pub fn shared_state()
    ensures { SharingShows }
{}

/// One value that is received twice, and a copy that changes.
pub fn two_copies_state()
    ensures { KeepingShows }
{}

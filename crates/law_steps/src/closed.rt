//! No place lies past the end of its store.

ghost use Rattle.law_steps.specs.Closed.{CopiesAreClosed, ReachedAreClosed, SplitsAreBelow, ValuesAreClosed};

/// Where the program has no places of its own, all that it reaches is closed.
pub fn reached_are_closed()
    ensures { ReachedAreClosed }
{}

/// What a closed activity's term splits into has no place past the end of its store.
pub fn splits_are_below()
    ensures { SplitsAreBelow }
{}

/// A deep copy of what places of a closed store reach is closed.
pub fn copies_are_closed()
    ensures { CopiesAreClosed }
{}

/// The copy of one place of a closed store is a value.
pub fn values_are_closed()
    ensures { ValuesAreClosed }
{}

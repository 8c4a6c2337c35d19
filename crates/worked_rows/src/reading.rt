//! What reading by paths tells apart, and what it does not.

ghost use Rattle.worked_rows.specs.Reading.{TellsFields, TellsFutures, TellsGroups, TellsMethods, TellsSharing};

/// A cell shared by two fields, and two equal cells.
pub fn sharing()
    ensures { TellsSharing }
{}

/// Labels, numbers and references.
pub fn fields()
    ensures { TellsFields }
{}

/// A method's head, and the places that its body captures.
pub fn methods()
    ensures { TellsMethods }
{}

/// A group's size.
pub fn groups()
    ensures { TellsGroups }
{}

/// Awaited names, and values that are read at two places.
pub fn futures()
    ensures { TellsFutures }
{}

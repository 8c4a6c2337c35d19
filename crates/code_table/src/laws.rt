//! Laws of the definitions. Each is the contract of a function that does nothing.

ghost use Rattle.code_table.specs.Uses.{LocationsAreUses};

/// The locations of a piece over captured places are those that it uses, in text order.
pub fn locations_are_uses()
    ensures law { LocationsAreUses }
{}

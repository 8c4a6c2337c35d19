//! The events of a step that finds no future among its strict operands.

ghost use Rattle.law_core.specs.Readings.{ActsUnpackNothing};

/// Whoever acts and has no need unpacks nothing.
pub fn acts_unpack_nothing()
    ensures { ActsUnpackNothing }
{}

//! What running a checked program rests on.

ghost use Rattle.asp_check.specs.NoPlaces.{ReadableHasNoPlaces};

/// A program that was read has no places of its own.
pub fn readable_has_no_places()
    ensures { ReadableHasNoPlaces }
{}

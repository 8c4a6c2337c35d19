//! Parcels and their unpacking.

ghost use Rattle.worked_rows.specs.Copies.{SharedIsPacked, CycleIsPacked, SharedIsUnpackedAt, SharedIsUnpackedBehindAny};

/// What is shared or cyclic in a store is so in its parcel.
pub fn packed()
    ensures shared { SharedIsPacked }
    ensures cycle { CycleIsPacked }
{}

/// A parcel at the place of a future, and behind any two cells.
pub fn unpacked()
    ensures at_place { SharedIsUnpackedAt }
    ensures behind { SharedIsUnpackedBehindAny }
{}

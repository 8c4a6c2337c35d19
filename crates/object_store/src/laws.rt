//! What a store is by the code of its objects.

ghost use Rattle.object_store.specs.Fields.{PlacesSetAreFieldsSet};

/// A place set at the number of a field is the field set.
pub fn places_set_are_fields_set()
    ensures law { PlacesSetAreFieldsSet }
{}

//! A law of the definitions. It is the contract of a function that does nothing.

ghost use Rattle.serve_rules.specs.Labels.{LabelsAreOfObjects};

/// The methods of each object have the labels of its class.
pub fn labels_are_of_objects()
    ensures law { LabelsAreOfObjects }
{}

//! Rows of the table of reductions that lead to other code.

ghost use Rattle.code_laws.specs.Laws.{
  BindingsAreEntered,
  BodiesAreEntered,
  ChoicesGoOn,
  ObjectsAreMade,
  RepetitionsGoOn,
  SequencesGoOn,
};

/// An object's cell has the class of its node, the places of its fields, and those that its methods
/// capture, read by slots.
pub fn objects_are_made()
    ensures law { ObjectsAreMade }
{}

/// A method that is called runs behind what it captured, its object and its arguments.
pub fn bodies_are_entered()
    ensures law { BodiesAreEntered }
{}

/// What a binding binds is one place more behind the environment.
pub fn bindings_are_entered()
    ensures law { BindingsAreEntered }
{}

/// A sequence goes on with its other terms.
pub fn sequences_go_on()
    ensures law { SequencesGoOn }
{}

/// A choice goes on with one of its branches, in the same environment.
pub fn choices_go_on()
    ensures law { ChoicesGoOn }
{}

/// A repetition goes on with its term, and then with itself.
pub fn repetitions_go_on()
    ensures law { RepetitionsGoOn }
{}

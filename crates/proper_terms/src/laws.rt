//! What the tests say.

ghost use Rattle.proper_terms.specs.Laws.{FittingIsProper, FittingMethodIsProper, SingleIsSingle};

/// A term without a hole fits exactly if it is proper, and its places are below the size.
pub fn fitting_is_proper()
    ensures { FittingIsProper }
{}

/// So it is of the body of a method.
pub fn fitting_method_is_proper()
    ensures { FittingMethodIsProper }
{}

/// The labels and names of an object stand once exactly as proper objects have them.
pub fn single_is_single()
    ensures { SingleIsSingle }
{}

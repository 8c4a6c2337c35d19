//! Sound checkpoints.

ghost use Rattle.law_checkpoints.specs.Laws.{
  FrozenAreFirst,
  FrozenAreInOrder,
  FrozenAreWhole,
  TermsAreRedexes,
};
ghost use Rattle.law_checkpoints.specs.Standing.{TimesAreOfList};

/// From what is thawed of a sound checkpoint a run can go on.
pub fn frozen_are_first()
    ensures { FrozenAreFirst }
{}

/// And it is whole.
pub fn frozen_are_whole()
    ensures { FrozenAreWhole }
{}

/// Its names stand in the order of creation.
pub fn frozen_are_in_order()
    ensures { FrozenAreInOrder }
{}

/// A proper term, as each of a sound checkpoint is, is a location, or a redex in contexts.
pub fn terms_are_redexes()
    ensures { TermsAreRedexes }
{}

/// How often a future stands is told by one list of all that stand, as a pass comes to them.
pub fn times_are_of_list()
    ensures { TimesAreOfList }
{}

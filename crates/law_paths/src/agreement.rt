//! The three laws, and what follows at once.

ghost use Rattle.law_paths.specs.Laws.{AgreementIsEquivalence, DeliveriesAgree, EndsOfBothAgree, MovesAreFollowed, StatusesAgree, StepsAgree, StepsCommute};

/// First law: a configuration agrees with what a delivery makes of it.
pub fn deliveries_agree()
    ensures { DeliveriesAgree }
{}

/// Second law: where two configurations agree and an activity can step in one, it can take the same
/// step in the other, and the results agree.
pub fn steps_agree()
    ensures { StepsAgree }
{}

/// Third law: steps of two activities under the same lists may be taken in either order.
pub fn steps_commute()
    ensures { StepsCommute }
{}

/// Agreement is an equivalence.
pub fn agreement_is_equivalence()
    ensures { AgreementIsEquivalence }
{}

/// Configurations that agree have equal statuses.
pub fn statuses_agree()
    ensures { StatusesAgree }
{}

/// Configurations that agree have outcomes that agree.
pub fn ends_of_both_agree()
    ensures { EndsOfBothAgree }
{}

/// Whatever moves lead to from one of two that agree, steps alone lead to from the other.
pub fn moves_are_followed()
    ensures { MovesAreFollowed }
{}

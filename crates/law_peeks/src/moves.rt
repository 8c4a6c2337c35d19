//! What a lease does by itself.

ghost use Rattle.law_peeks.specs.Moves.{MovesAreReduced, MovesReadOn, MovesRunOn, PeeksAreNeeds};

/// A value that a lease reads is what its activity needs, if it is the future's own.
pub fn peeks_are_needs()
    ensures { PeeksAreNeeds }
{}

/// The reductions behind its moves are those of the activity to which they lead.
pub fn moves_are_reduced()
    ensures { MovesAreReduced }
{}

/// A lease goes on with contractions.
pub fn moves_run_on()
    ensures { MovesRunOn }
{}

/// Or with a value that it reads.
pub fn moves_read_on()
    ensures { MovesReadOn }
{}

//! What lends and deliveries enter.

ghost use Rattle.law_journals.specs.Entered.{EdgesAreEntered, LendsAreEntered, NeedsAreEntered};

/// One that is in and can step goes out, where some budget is left.
pub fn lends_are_entered()
    ensures { LendsAreEntered }
{}

/// A filled future's own value goes to each place of one that is in.
pub fn edges_are_entered()
    ensures { EdgesAreEntered }
{}

/// A value goes to a place of one that is in, whose future leads to it.
pub fn needs_are_entered()
    ensures { NeedsAreEntered }
{}

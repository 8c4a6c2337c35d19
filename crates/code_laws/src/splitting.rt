//! The laws of splitting.

ghost use Rattle.code_laws.specs.Splitting.{SplitsAreRedexes, SplitsOneWay, SplitsPlugBack};

/// What a term splits into gives the term back.
pub fn splits_plug_back()
    ensures law { SplitsPlugBack }
{}

/// A term splits into a redex in evaluation contexts.
pub fn splits_are_redexes()
    ensures law { SplitsAreRedexes }
{}

/// A redex in evaluation contexts is found again, so that a term is one in one way alone.
pub fn splits_one_way()
    ensures law { SplitsOneWay }
{}

//! The laws of splitting, each as the contract of a function that does nothing.

ghost use Rattle.code_laws.specs.Splitting.{SplitsAreRedexes, SplitsOneWay, SplitsPlugBack};

/// What a term splits into gives the term back.
pub fn splits_plug_back()
    ensures { SplitsPlugBack }
{}

/// A term splits into a redex in evaluation contexts.
pub fn splits_are_redexes()
    ensures { SplitsAreRedexes }
{}

/// A redex in evaluation contexts is found again, so that a term is one in one way alone.
pub fn splits_one_way()
    ensures { SplitsOneWay }
{}

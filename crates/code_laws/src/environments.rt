//! Terms in environments.

ghost use Rattle.code_laws.specs.Laws.{EnvironmentsAreCut, EnvironmentsGrow, PutsTwice};
ghost use Rattle.code_laws.specs.Shown.{TermsAreShown};

/// To put in two environments one after the other is to put in both.
pub fn puts_twice()
    ensures law { PutsTwice }
{}

/// A term does not look at places behind those of its scope.
pub fn environments_grow()
    ensures law { EnvironmentsGrow }
{}

/// Places behind those of the scope may be cut.
pub fn environments_are_cut()
    ensures law { EnvironmentsAreCut }
{}

/// The term of a piece that runs in an environment can be read without the scope.
pub fn terms_are_shown()
    ensures law { TermsAreShown }
{}

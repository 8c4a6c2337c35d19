//! What a sound checkpoint keeps can be made. Each law is the contract of a function that does nothing.

ghost use Rattle.checkpoint_makes.specs.Terms.{TermsRun, TermsWait};

/// A proper term is one that runs.
pub fn terms_run()
    ensures law { TermsRun }
{}

/// The terms of a service are those of one that waits.
pub fn terms_wait()
    ensures law { TermsWait }
{}

//! Laws of what is made anew. Each is the contract of a function that does nothing.

ghost use Rattle.frozen_code.specs.Held.{ContextsMayCome, ContextsStay, RedexesMayCome, RedexesStay};
ghost use Rattle.frozen_code.specs.Named.{NamedAreClosed, NamesAreTakenBack};
ghost use Rattle.frozen_code.specs.Objects.{ObjectsAreKept, ObjectsAreRestored};

/// With its places put in for their names, a term is what it was.
pub fn names_are_taken_back()
    ensures law { NamesAreTakenBack }
{}

/// A proper term whose places have names is one of a program where these names are bound.
pub fn named_are_closed()
    ensures law { NamedAreClosed }
{}

/// What `Held::compile` asks for: the context, or the redex, was proper.
pub fn proper_may_come()
    ensures contexts { ContextsMayCome }
    ensures redexes { RedexesMayCome }
{}

/// What was made over a table stands over each table that begins with it.
pub fn held_stay()
    ensures contexts { ContextsStay }
    ensures redexes { RedexesStay }
{}

/// An object of the class that was compiled for it, with its places, is the object that was read.
pub fn objects_are_restored()
    ensures kept { ObjectsAreKept }
    ensures same { ObjectsAreRestored }
{}

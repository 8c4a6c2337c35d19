//! What every reached configuration keeps of names, requests and futures.

ghost use Rattle.law_steps.specs.Kept.{EntriesAscend, FuturesStandOnce, FuturesWereBegun, LogsTell, NamesAreCreations, RequestsAreSends, ServedOnce};

/// Activities, received requests and filled futures stand in the order of their names.
pub fn entries_ascend()
    ensures { EntriesAscend }
{}

/// Exactly main and the created ones are there.
pub fn names_are_creations()
    ensures { NamesAreCreations }
{}

/// A request is received by one that is there, and its future is one that its sender has begun.
pub fn requests_are_sends()
    ensures { RequestsAreSends }
{}

/// From the start of a program, a log has the senders of all requests that came, in order.
pub fn logs_tell()
    ensures { LogsTell }
{}

/// An activity serves requests that it received, each once.
pub fn served_once()
    ensures { ServedOnce }
{}

/// Each future that was begun stands once: pending, to be answered, or filled.
pub fn futures_stand_once()
    ensures { FuturesStandOnce }
{}

/// A future that is filled, or has to be answered, was begun.
pub fn futures_were_begun()
    ensures { FuturesWereBegun }
{}

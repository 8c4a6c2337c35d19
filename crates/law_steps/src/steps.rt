//! What a step does, and what it leaves of the others.

ghost use Rattle.law_steps.specs.Steps.{EffectsAreNew, FuturesFill, ListedIsFree, OneIsMade, OthersStay, IntentsStay, LogsGrow, PollsStay, RequestsGrow, StepsCount};

/// A step with lists is the step without.
pub fn listed_is_free()
    ensures { ListedIsFree }
{}

/// Who steps is there, and has one reduction more.
pub fn steps_count()
    ensures { StepsCount }
{}

/// Another activity is as before.
pub fn others_stay()
    ensures { OthersStay }
{}

/// An activity that comes with a step is the next one that its stepper creates.
pub fn one_is_made()
    ensures { OneIsMade }
{}

/// An activity receives at most one request in a step, at the end, from who stepped.
pub fn requests_grow()
    ensures { RequestsGrow }
{}

/// In a step a log and the requests stay, or both have one more, from who stepped, or who stepped
/// has polled.
pub fn logs_grow()
    ensures { LogsGrow }
{}

/// At most one future is filled in a step, and it was not filled.
pub fn futures_fill()
    ensures { FuturesFill }
{}

/// What another activity intends to do, it does after the step too, if it is no poll of what the
/// step sends.
pub fn intends_stay()
    ensures { IntentsStay }
{}

/// A poll of another activity is one after the step too.
pub fn polls_stay()
    ensures { PollsStay }
{}

/// What an activity intends to make, send and fill is new.
pub fn effects_are_new()
    ensures { EffectsAreNew }
{}

//! Who steps next, where those who are not ready rest.

ghost use Rattle.law_schedules.specs.Schedules.{LeastSteps, MainIsReady, NoneIsReady, NotesLeave, RestersLeave, WokenAreScheduled};
ghost use Rattle.law_schedules.specs.Watches.{CalledAreScheduled, MainIsWatched};

/// If a step adds the activities that it wakes to the ready ones, every other activity still rests.
pub fn woken_are_scheduled()
    ensures { WokenAreScheduled }
{}

/// An activity that rests may leave the ready ones.
pub fn resters_leave()
    ensures { RestersLeave }
{}

/// Notes at filled futures may be dropped.
pub fn notes_leave()
    ensures { NotesLeave }
{}

/// The least of those ready steps next, where it can.
pub fn least_steps()
    ensures { LeastSteps }
{}

/// Nobody steps where nobody is ready.
pub fn none_is_ready()
    ensures { NoneIsReady }
{}

/// At the start main is ready.
pub fn main_is_ready()
    ensures { MainIsReady }
{}

/// If a step adds the activities that it is for to the ready ones, every other activity still rests,
/// and waits for what is noted of it.
pub fn called_are_scheduled()
    ensures { CalledAreScheduled }
{}

/// At the start main is ready.
pub fn main_is_watched()
    ensures { MainIsWatched }
{}

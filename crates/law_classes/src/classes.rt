//! Configurations that are alike but for the order between classes, and families that are complete
//! so.

ghost use Rattle.law_classes.specs.Complete.{AlikeOutcomes, AlikeStatuses, AlikeSteps, FittingAreWithin, RunsEnd, RunsLeadOn, StuckRunsAreAlike};
ghost use Rattle.law_classes.specs.Requests.{RestingRunsAreFull, ServicesShowClasses, StuckReplaysAreEnds};

/// A step of who asks in one class is one in each configuration that is alike.
pub fn alike_steps()
    ensures { AlikeSteps }
{}

/// Who asks in one class stands the same in each configuration that is alike.
pub fn alike_statuses()
    ensures { AlikeStatuses }
{}

/// Configurations that are alike have outcomes that are equal but for the logs.
pub fn alike_outcomes()
    ensures { AlikeOutcomes }
{}

/// Each run, at each point, leads on to what is alike with one of the ends.
pub fn runs_lead_on()
    ensures { RunsLeadOn }
{}

/// Each stuck run is alike with one of the ends, and has its outcome but for the logs.
pub fn stuck_runs_are_alike()
    ensures { StuckRunsAreAlike }
{}

/// No run takes more reductions than the longest of the ends.
pub fn runs_end()
    ensures { RunsEnd }
{}

/// Whatever fits the program is within an end, and is alike with one of the ends where nobody can
/// step.
pub fn fitting_are_within()
    ensures { FittingAreWithin }
{}

/// A replay after which nobody can step is an end by classes, if nobody polled and all asked in one
/// class.
pub fn stuck_replays_are_ends()
    ensures { StuckReplaysAreEnds }
{}

/// A run within lists with which those of an end begin has gone as far as it can, if nobody is next.
pub fn resting_runs_are_full()
    ensures { RestingRunsAreFull }
{}

/// The services of a replay show its logs by classes, that nobody polled, and that all asked in one
/// class.
pub fn services_show_classes()
    ensures { ServicesShowClasses }
{}

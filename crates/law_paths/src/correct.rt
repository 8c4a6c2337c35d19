//! The central theorem, for whatever steps and deliveries reach, and for lawful journals.

ghost use Rattle.law_paths.specs.Correct.{JournalsAreReplayed, NarrowRunsAreAlone, OneSenderIsEnough, ReachedAreReplayed, ReachedJoin};

/// Whatever steps and deliveries reach agrees with the replay of its own lists and counts, which
/// fit; with equal statuses, verdict and reports.
pub fn reached_are_replayed()
    ensures { ReachedAreReplayed }
{}

/// Whatever a lawful journal of leases and deliveries leaves agrees with the replay of its own lists
/// and counts.
pub fn journals_are_replayed()
    ensures { JournalsAreReplayed }
{}

/// For two that are reached with compatible lists, the joined lists and counts fit, and one that is
/// stuck has them.
pub fn reached_join()
    ensures { ReachedJoin }
{}

/// Beside a stuck one whose logs are narrow, each other that is reached has beginnings of its logs,
/// and each other stuck one ends as it does, with equal reports.
pub fn one_sender_is_enough()
    ensures { OneSenderIsEnough }
{}

/// So for the run of every lawful journal of the program.
pub fn narrow_runs_are_alone()
    ensures { NarrowRunsAreAlone }
{}

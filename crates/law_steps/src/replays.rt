//! Runs and their replays.

ghost use Rattle.law_steps.specs.Replays.{CountsSum, FitsWhereRun, ListedRunsStayWithin, OwnListsShow, PlainRunsAreRuns, PlainRunsReplay, PlainRunsSpend, ReplaysAreRuns, ReplaysLead, ReplaysRest, RunsAgree, RunsReplay, RunsUnderOwnLists};

/// The lists of a configuration have each activity's log.
pub fn own_lists_show()
    ensures { OwnListsShow }
{}

/// A run without lists is one under the lists that it leaves.
pub fn runs_under_own_lists()
    ensures { RunsUnderOwnLists }
{}

/// Under lists, each activity's log is a beginning of its list.
pub fn listed_runs_stay_within()
    ensures { ListedRunsStayWithin }
{}

/// Where a run under lists leads, the replay under them and its counts leads.
pub fn replays_lead()
    ensures { ReplaysLead }
{}

/// A replay is a run under its lists.
pub fn replays_are_runs()
    ensures { ReplaysAreRuns }
{}

/// A replay has ended: nobody below its count can step.
pub fn replays_rest()
    ensures { ReplaysRest }
{}

/// A run without lists, in any order, ends in the replay of its lists and counts.
pub fn runs_replay()
    ensures { RunsReplay }
{}

/// The run of one thread is the replay of its lists and counts.
pub fn plain_runs_replay()
    ensures { PlainRunsReplay }
{}

/// The run of one thread is a run without lists.
pub fn plain_runs_are_runs()
    ensures { PlainRunsAreRuns }
{}

/// The counts sum to the number of steps.
pub fn counts_sum()
    ensures { CountsSum }
{}

/// The run of one thread takes at most so many steps, and just so many where it is not stuck.
pub fn plain_runs_spend()
    ensures { PlainRunsSpend }
{}

/// Lists and counts fit exactly where a run under the lists ends with them.
pub fn fits_where_run()
    ensures { FitsWhereRun }
{}

/// Two runs that leave equal lists and counts end in one configuration.
pub fn runs_agree()
    ensures { RunsAgree }
{}

//! The outcomes of runs, and their reports.

ghost use Rattle.law_outcomes.specs.Outcomes.{EndReportsAgree, NumbersAreWithin, OutcomesAreWellFormed, PlainRunsShowReplays, ReplayReportsAreRead, ReportsOfRunsAreRead, ReportsShowReplays, RunsShowReplays, NarrowReportsAreAll};

/// No activity has created, or has sent, more often than all together have reduced.
pub fn numbers_are_within()
    ensures { NumbersAreWithin }
{}

/// The outcome of what a program with printable texts reaches within 10,000,000 reductions is well
/// formed.
pub fn outcomes_are_well_formed()
    ensures { OutcomesAreWellFormed }
{}

/// Its report reads as its logs and counts.
pub fn reports_of_runs_are_read()
    ensures { ReportsOfRunsAreRead }
{}

/// The report of a configuration that is its own replay shows that replay.
pub fn reports_show_replays()
    ensures { ReportsShowReplays }
{}

/// The report of a run without lists, in any order, shows its replay.
pub fn runs_show_replays()
    ensures { RunsShowReplays }
{}

/// The report of the run of one thread shows its replay.
pub fn plain_runs_show_replays()
    ensures { PlainRunsShowReplays }
{}

/// The report of a replay reads as the lists and counts that it was made under, where they fit.
pub fn replay_reports_are_read()
    ensures { ReplayReportsAreRead }
{}

/// Two ended runs of one program whose reports, at one depth, read as equal logs print the same
/// bytes.
pub fn end_reports_agree()
    ensures { EndReportsAgree }
{}

/// If the logs of an ended run are narrow, each of one sender and without a poll, every run of the
/// program that ends prints the same bytes at each depth.
pub fn narrow_reports_are_all()
    ensures { NarrowReportsAreAll }
{}

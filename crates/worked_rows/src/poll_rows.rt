//! Activities that ask what is pending.

ghost use Rattle.worked_rows.specs.Polls.{AskedAtLastReports, AskedByLabelReports, AskedByMainReports, AskedEarlyReports, AskedFirstDiverges, AskedInVersion1, AskedLateReports, AskedNotYetReports, AskedTwiceReports, NarrowLogs};

/// A poll behind two requests, one between them, and one before them, which does not fit. A report
/// of version 1 has none.
pub fn polls()
    ensures late { AskedLateReports }
    ensures early { AskedEarlyReports }
    ensures first { AskedFirstDiverges }
    ensures version { AskedInVersion1 }
{}

/// A budget that ends before a poll, and one that ends with it.
pub fn polls_at_the_budget()
    ensures before { AskedNotYetReports }
    ensures last { AskedAtLastReports }
{}

/// Two polls, with a service between them.
pub fn polls_round_a_service()
    ensures report { AskedTwiceReports }
{}

/// A request whose label is that of no method, asked for by its label and without labels.
pub fn polls_by_label()
    ensures report { AskedByLabelReports }
{}

/// Main, which nobody can ask for anything.
pub fn polls_of_main()
    ensures report { AskedByMainReports }
{}

/// Which logs have one sender at most and no poll.
pub fn narrow_logs()
    ensures narrow { NarrowLogs }
{}

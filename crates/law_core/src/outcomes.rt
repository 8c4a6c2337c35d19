//! What the end of a run has in common with its replay.

ghost use Rattle.law_core.specs.Outcomes.{JournalsEnd, VerdictsSpend};

/// The replay of the lists and counts that the outcome of a lawful journal shows fits, agrees with
/// it, and has the same outcome and reports.
pub fn journals_end()
    ensures { JournalsEnd }
{}

/// Where a verdict is told, it is that of the outcome, whose counts keep within the budget, and sum
/// to it where that ran out.
pub fn verdicts_spend()
    ensures { VerdictsSpend }
{}

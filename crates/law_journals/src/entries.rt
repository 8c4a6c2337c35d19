//! The entries of a lawful journal are steps and deliveries.

ghost use Rattle.law_journals.specs.Budgets.{BudgetsAreKept};
ghost use Rattle.law_journals.specs.Entries.{EntriesKeepClosed, EntriesKeepSound, JournalsReach, StepsAreLocal};

/// From the start of a program, the run of a lawful journal is reached by steps and deliveries.
pub fn journals_reach()
    ensures { JournalsReach }
{}

/// From any run on, entries keep what is sound.
pub fn entries_keep_sound()
    ensures { EntriesKeepSound }
{}

/// From any run on, entries keep what is closed.
pub fn entries_keep_closed()
    ensures { EntriesKeepClosed }
{}

/// A step that is no communication changes its activity alone, and neither what it serves, nor what
/// it has to answer, nor how often it has sent and created.
pub fn steps_are_local()
    ensures { StepsAreLocal }
{}

/// The counts, what is left, and what is granted to those who are out sum to the budget and the
/// counts at the beginning.
pub fn budgets_are_kept()
    ensures { BudgetsAreKept }
{}

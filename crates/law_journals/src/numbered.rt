//! The numbers of activities.

ghost use Rattle.law_journals.specs.Numbered.{EntriesKeepNumbers, HistoriesAreNumbered, StartIsFirst};

/// A run may begin at the start of a program.
pub fn start_is_first()
    ensures { StartIsFirst }
{}

/// In the run of a history each activity that is there has one number, and nobody else has one,
/// where it was so where the history begins.
pub fn histories_are_numbered()
    ensures { HistoriesAreNumbered }
{}

/// From any run on, entries keep this.
pub fn entries_keep_numbers()
    ensures { EntriesKeepNumbers }
{}

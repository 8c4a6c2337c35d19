//! Where runs are saved, and what is frozen there.

ghost use Rattle.law_checkpoints.specs.Order.{EntriesKeepOrder};
ghost use Rattle.law_checkpoints.specs.Saved.{RunsAreSaved, RunsAreSavedAgain, SavedAreSound};

/// What is frozen where a run of a program is saved is sound.
pub fn saved_are_sound()
    ensures { SavedAreSound }
{}

/// Entries keep the names of activities in the order of creation.
pub fn entries_keep_order()
    ensures { EntriesKeepOrder }
{}

/// The run of each lawful journal of a program can be saved.
pub fn runs_are_saved()
    ensures { RunsAreSaved }
{}

/// Where a run went on that was saved, it can be saved again.
pub fn runs_are_saved_again()
    ensures { RunsAreSavedAgain }
{}

//! What every reached configuration has, and each move keeps.

ghost use Rattle.law_paths.specs.Whole.{EntriesKeepWhole, MovesKeepWhole, ReachedAreWhole, StartIsWhole};

/// The start of a program that was read is whole.
pub fn start_is_whole()
    ensures { StartIsWhole }
{}

/// What a move leads to from a whole configuration is whole.
pub fn moves_keep_whole()
    ensures { MovesKeepWhole }
{}

/// What is reached from a program that was read is whole.
pub fn reached_are_whole()
    ensures { ReachedAreWhole }
{}

/// From any run on, entries keep what is whole.
pub fn entries_keep_whole()
    ensures { EntriesKeepWhole }
{}

//! Checkpoint files.

ghost use Rattle.law_checkpoint_texts.specs.Files.{FilesAreOwn, FilesAreResumed, RunsAreFiles};

/// The checkpoint of the end of each run of a program is a file of it.
pub fn runs_are_files()
    ensures { RunsAreFiles }
{}

/// Where a file of a program is read, each run that goes on from it is one run with what was saved,
/// and its end has such a file again.
pub fn files_are_resumed()
    ensures { FilesAreResumed }
{}

/// No file of a program is taken for that of another.
pub fn files_are_own()
    ensures { FilesAreOwn }
{}

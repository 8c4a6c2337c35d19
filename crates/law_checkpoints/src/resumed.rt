//! Runs that go on from where they were saved.

ghost use Rattle.law_checkpoints.specs.Resumed.{ResumedAreOneRun};

/// A run that went on tells what one run of its program tells.
pub fn resumed_are_one_run()
    ensures { ResumedAreOneRun }
{}

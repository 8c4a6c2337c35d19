//! Worked files.

ghost use Rattle.law_checkpoint_texts.specs.Rows.{ResumedAtThree, SavedAtThree};

/// The checkpoint of `print(1 + 2)`, stopped behind three reductions, is a file of that program.
pub fn saved_at_three()
    ensures { SavedAtThree }
{}

/// With one reduction more the run ends, and has printed 3.
pub fn resumed_at_three()
    ensures { ResumedAtThree }
{}

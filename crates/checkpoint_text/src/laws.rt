//! The laws of the text.

ghost use Rattle.checkpoint_text.specs.Laws.{CheckpointsAreRead, ReadsAreWritten};

/// What is written is read, and nothing else is.
pub fn checkpoints_are_read()
    ensures read { CheckpointsAreRead }
    ensures written { ReadsAreWritten }
{}

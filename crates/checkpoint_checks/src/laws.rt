//! What the test of a checkpoint says.

ghost use Rattle.checkpoint_checks.specs.Laws.{FittingIsSound};

/// A checkpoint fits exactly if it is sound.
pub fn fitting_is_sound()
    ensures { FittingIsSound }
{}

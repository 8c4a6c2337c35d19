//! What every reached configuration has, as one fact that each move keeps.

ghost use Rattle.law_steps.specs.Sound.{MovesKeepClosed, MovesKeepSound, ReachedAreSound, SoundIntents, SoundSteps, StartIsClosed, StartIsSound};

/// The start of a program is sound.
pub fn start_is_sound()
    ensures { StartIsSound }
{}

/// What a move leads to from a sound configuration is sound.
pub fn moves_keep_sound()
    ensures { MovesKeepSound }
{}

/// What is reached is sound.
pub fn reached_are_sound()
    ensures { ReachedAreSound }
{}

/// The start of a program without places of its own is closed.
pub fn start_is_closed()
    ensures { StartIsClosed }
{}

/// What a move leads to from a closed configuration is closed.
pub fn moves_keep_closed()
    ensures { MovesKeepClosed }
{}

/// In a sound configuration each intent is a step without lists, and what it gives is new.
pub fn sound_intents()
    ensures { SoundIntents }
{}

/// A step from a sound configuration leaves the others as they are, with what they intend.
pub fn sound_steps()
    ensures { SoundSteps }
{}

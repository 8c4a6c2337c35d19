//! Texts of checkpoints, of any size.

ghost use Rattle.law_checkpoint_texts.specs.Texts.{SavedAreSure, TextsAreSure};

/// Where the text of a sound value is read at all, it is read as that value.
pub fn texts_are_sure()
    ensures { TextsAreSure }
{}

/// So is the text of what is frozen where a program is saved.
pub fn saved_are_sure()
    ensures { SavedAreSure }
{}

//! What a lease notes of the values that it reads.

ghost use Rattle.law_peeks.specs.Noted.{MovesArePartable, NotesGoOn, NotesTell};

/// All that was read is noted, and what trails is noted behind all contractions.
pub fn notes_tell()
    ensures { NotesTell }
{}

/// How notes go on.
pub fn notes_go_on()
    ensures { NotesGoOn }
{}

/// Moves are parted behind any of their contractions.
pub fn moves_are_partable()
    ensures { MovesArePartable }
{}

//! What programs that were read and checked reach.

ghost use Rattle.law_programs.specs.Programs.{ProgramsAreProper, StartIsWhole, MovesKeepWhole, ReachedAreWhole, WholeNeverBreak, ReachedNeverBreak};

/// A program that was read and checked is a proper term.
pub fn programs_are_proper()
    ensures { ProgramsAreProper }
{}

/// Its start is closed in every sense.
pub fn start_is_whole()
    ensures { StartIsWhole }
{}

/// Each move keeps that.
pub fn moves_keep_whole()
    ensures { MovesKeepWhole }
{}

/// All that the program reaches is closed in every sense.
pub fn reached_are_whole()
    ensures { ReachedAreWhole }
{}

/// What is so comes to no broken redex, asks for no operand that is unpacked, and is done only at
/// an end.
pub fn whole_never_break()
    ensures { WholeNeverBreak }
{}

/// So is it of all that a program which was read and checked reaches.
pub fn reached_never_break()
    ensures { ReachedNeverBreak }
{}

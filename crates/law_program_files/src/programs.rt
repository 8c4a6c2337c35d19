//! Programs, their texts and their checkpoint files.

ghost use Rattle.law_program_files.specs.Programs.{
  PrintsAreLines,
  ProgramsAreOwn,
  ProgramsAreResumed,
};

/// What was read is printed on one line.
pub fn prints_are_lines()
    ensures { PrintsAreLines }
{}

/// Where a file of a program is read that was checked, each run that goes on from it is one run with
/// what was saved, and its end has such a file again.
pub fn programs_are_resumed()
    ensures { ProgramsAreResumed }
{}

/// No file of such a program is taken for that of another.
pub fn programs_are_own()
    ensures { ProgramsAreOwn }
{}

//! What holds of each program that stands in bytes.

ghost use Rattle.law_outcomes.specs.Programs.{ProgramTextsArePrintable, ProgramsAreReadable, ProgramsHaveNoPlaces};

/// Each program in bytes is what a program that was read is.
pub fn programs_are_readable()
    ensures { ProgramsAreReadable }
{}

/// No program in bytes has places of its own.
pub fn programs_have_no_places()
    ensures { ProgramsHaveNoPlaces }
{}

/// Each text in a program in bytes has printable bytes alone.
pub fn program_texts_are_printable()
    ensures { ProgramTextsArePrintable }
{}

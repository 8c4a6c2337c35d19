//! The lines of journals.

ghost use Rattle.law_traces.specs.Lines.{JournalsHaveLines};

/// Each entry of a lawful journal has a line.
pub fn journals_have_lines()
    ensures lines { JournalsHaveLines }
{}

//! Worked command lines. No function here computes anything: each stands for its clauses.

ghost use Rattle.command_line.specs.Lines.{
  AcceptedLines,
  RefusedCombinations,
  RefusedNumbers,
  RefusedStrategies,
  RefusedWords,
};
ghost use Rattle.command_line.specs.PlainWords.{PlainWordRuns};

/// Lines that are accepted, and what they ask for.
pub fn accepted_lines()
    ensures lines { AcceptedLines }
{}

/// Lines that are refused.
pub fn refused_lines()
    ensures combinations { RefusedCombinations }
    ensures strategies { RefusedStrategies }
    ensures numbers { RefusedNumbers }
    ensures words { RefusedWords }
{}

/// Any file whose name begins with no hyphen is run by its name alone.
pub fn plain_word_runs()
    ensures runs { PlainWordRuns }
{}

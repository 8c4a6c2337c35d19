//! What a complete family says of the runs of `asp`.

ghost use Rattle.outcomes_top.specs.Joined.{EndedRunsAreAlike, EndedRunsAreFound, SpentRunsAreShort};

/// If the ends are all by whole orders, each run of the program that has ended printed the report of
/// one of them.
pub fn ended_runs_are_found()
    ensures { EndedRunsAreFound }
{}

/// If they are all by classes of labels, it printed that but for the lines of logs.
pub fn ended_runs_are_alike()
    ensures { EndedRunsAreAlike }
{}

/// A run of the program spends its budget only if the longest of the ends has more reductions.
pub fn spent_runs_are_short()
    ensures { SpentRunsAreShort }
{}

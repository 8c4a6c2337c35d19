//! What two calls say of each other.

ghost use Rattle.asp_top.specs.Ended.{ComparisonsAreExact, EndedRunsPrintTheSame, JournalsAreAccepted, OneSenderPrintsTheSame, SavesAreResumed};

/// Two runs of one program that have ended, whose reports show states to one depth and read as
/// equal logs, print equal bytes.
pub fn ended_runs_print_the_same()
    ensures { EndedRunsPrintTheSame }
{}

/// Two such runs print equal bytes, whatever their logs, if each log of one of them is narrow: of
/// one sender at most, and without a poll.
pub fn one_sender_prints_the_same()
    ensures { OneSenderPrintsTheSame }
{}

/// A comparison of two reports writes `same` exactly where both replays are stuck and no service
/// can tell, and then the two reports are equal at every depth but for the lines of logs.
pub fn comparisons_are_exact()
    ensures { ComparisonsAreExact }
{}

/// What `--journal` writes is all that `--trace` asks of a trace, under the same budget, and it gives
/// the report of the run, at every depth, with its status.
pub fn journals_are_accepted()
    ensures { JournalsAreAccepted }
{}

/// What `--save` writes where the budget runs out is a checkpoint of its program's run, and from it
/// `--resume` writes the report of both halves: that of a replay of the whole program.
pub fn saves_are_resumed()
    ensures { SavesAreResumed }
{}

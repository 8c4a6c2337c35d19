//! What becomes of the ranks of others, and what a rank tells.

ghost use Rattle.law_core.specs.Keeping.{RanksTell, ReceiversRank, StepsKeepRanks, WritesKeepRanks};

/// A step of one shifts who waited for the future that it fills; all others stand as before, unless
/// they rested and receive.
pub fn steps_keep_ranks()
    ensures { StepsKeepRanks }
{}

/// Who receives stands as before, or rested and may step now.
pub fn receivers_rank()
    ensures { ReceiversRank }
{}

/// What an activity becomes changes no rank but its own.
pub fn writes_keep_ranks()
    ensures { WritesKeepRanks }
{}

/// Who may step is running and lacks nothing, a need is told, and who awaits without one.
pub fn ranks_tell()
    ensures { RanksTell }
{}

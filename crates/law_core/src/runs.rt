//! Ranks by the numbers of a run.

ghost use Rattle.law_core.specs.Runs.{LendsKeepRanks, RanksTellReady};

/// Ready are those that may step, while some budget is left.
pub fn ranks_tell_ready()
    ensures { RanksTellReady }
{}

/// A lend changes no rank but that of who is lent, which has none then.
pub fn lends_keep_ranks()
    ensures { LendsKeepRanks }
{}

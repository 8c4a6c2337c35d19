//! Two replays between which no service can tell.

ghost use Rattle.law_services.specs.Correct.{ServedAlikeEndAlike, ServedAlikeShowAlike};

/// Where both are stuck, they end alike, cell by cell.
pub fn served_alike_end_alike()
    ensures { ServedAlikeEndAlike }
{}

/// And their outcomes, with every state, are equal but for the logs.
pub fn served_alike_show_alike()
    ensures { ServedAlikeShowAlike }
{}

//! What the notes of a replay tell, and what two reports have in common.

ghost use Rattle.replay_services.specs.Heard.{NotesTell};
ghost use Rattle.replay_services.specs.Reports.{SameRunsShowAlike};

/// The notes of a replay that fits tell which requests came, who polled, and at which services its
/// activities stood.
pub fn notes_tell()
    ensures { NotesTell }
{}

/// Two runs between which no service can tell have reports, at every depth, that are equal but for
/// the lines of logs.
pub fn same_runs_show_alike()
    ensures { SameRunsShowAlike }
{}

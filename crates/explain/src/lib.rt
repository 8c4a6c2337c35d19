//! What is told to people: of a program its first fault, with the line and a cure, or its warnings;
//! of a run why it stands as it does, what happened in it, how another one differs, and a picture.
#![tactic(auto)]

mod around;
mod cures;
mod differences;
mod events;
mod findings;
mod nearest;
mod other;
mod pictures;
mod remark;
mod sentences;
mod shown;
mod standing;
mod telling;
mod text_pieces;
mod uses;
mod warnings;

pub use differences::{
    Comparison, Difference, Entry, OrderedRun, agreeing_are_compatible, compare, first_other_line,
    ordered_run, tell_difference,
};
pub use events::{EventsRun, RunEvent, What, Wish, events_of, tell_events};
pub use findings::{Fault, Findings, explain};
pub use nearest::Nearest;
pub use pictures::{MOST_EVENTS, MOST_LANES, draw};
pub use remark::{Remark, Severity};
pub use shown::text_of;
pub use standing::tell_run;
pub use telling::{Told, tell};
pub use text_pieces::Telling;
pub use text_places::{Position, position_of};

//! The runs of a program as a search for its outcomes asks for them: who could enter something else
//! at a place of a log, and runs that begin with given logs.
#![tactic(auto)]

mod entries;
mod logs;
mod offers;
mod replays;

pub use logs::total_of;
pub use replays::{Replays, logs_of};

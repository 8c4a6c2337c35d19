//! A replay that keeps what its services could take: which requests came to each activity, whether
//! it polled, and the labels of its services. Two runs of which no service can tell one from the
//! other are compared by that.
#![tactic(auto)]

mod compares;
mod heard;
mod laws;
mod listener;
mod replays;

pub use compares::{Comparison, compare};
pub use laws::{notes_tell, same_runs_show_alike};
pub use replays::{ServicesRun, replay_services};

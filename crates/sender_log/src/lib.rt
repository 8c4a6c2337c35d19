//! What a report says of a run: its logs and its counts, or its first line that cannot stand in its
//! place.
#![tactic(auto)]

mod error;
mod lines;
mod progress;
mod read;
mod step;

pub use error::LogError;
pub use read::read_report;

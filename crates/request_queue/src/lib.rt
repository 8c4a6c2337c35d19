//! The pending requests of one activity, and which of them a service takes.
#![tactic(auto)]

mod arrivals;
mod crowd;
mod few;
mod laws;
mod notes;
mod numbers;
mod queue;
mod request;

pub use laws::{arrivals_wait, matches_are_pending, served_leave};
pub use queue::Queue;
pub use request::Request;

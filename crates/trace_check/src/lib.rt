//! Traces checked: whether entries are a lawful journal of a program whose run has ended.
#![tactic(auto)]

mod check;
mod error;
mod laws;

pub use check::check_trace;
pub use error::TraceStop;
pub use laws::ended_are_accepted;

//! Traces: the entries of a journal as text, and read again. What is written is read as the same
//! entries, and of a text that is no trace the first bad line is told.
#![tactic(auto)]

mod entries;
mod error;
mod laws;
mod numbers;
mod progress;
mod read;
mod write;

pub use error::TraceError;
pub use laws::{refused_traces, traces_are_read, written_traces};
pub use read::read_trace;
pub use write::write_trace;

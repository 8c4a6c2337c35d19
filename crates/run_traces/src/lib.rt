//! A run by workers, with the trace of what its core did.
#![tactic(auto)]

mod traced;

pub use traced::{Traced, run_traced};

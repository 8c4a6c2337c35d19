//! A run that goes on from a configuration, by workers that race for its core.
#![tactic(auto)]

mod resumed;

pub use resumed::{resume_core, run_resumed};

//! A run of a core by workers that race for it, until its verdict is there.
#![tactic(auto)]

mod pool;

pub use pool::{Settings, run, run_core};
pub use race_workers::{Gate, OpenGate};

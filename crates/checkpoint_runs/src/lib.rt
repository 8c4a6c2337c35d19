//! Checkpoints of runs: what is frozen of a core, as the text that stands for it.
#![tactic(auto)]

mod checkpoints;

pub use checkpoints::write_checkpoint;

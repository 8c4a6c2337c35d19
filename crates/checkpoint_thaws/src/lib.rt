//! What goes on from a checkpoint that was read.
#![tactic(auto)]

mod thaws;

pub use thaws::make_frozen;

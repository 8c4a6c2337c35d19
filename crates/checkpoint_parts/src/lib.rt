//! What a checkpoint keeps, as plain data: activities, and the whole of it.
#![tactic(auto)]

mod parts;

pub use parts::{ActivityText, CheckpointText, PartsText, ServiceText, StateText, WorkText};

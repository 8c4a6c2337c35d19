//! Whole checkpoints, read: what the text of one keeps, found exactly if it is written so.
#![tactic(auto)]

mod activities;
mod checkpoints;
mod looks;
mod room;
mod running;

pub use checkpoint_items::ReadError;
pub use checkpoints::read_checkpoint;
pub use looks::{HEAD_LOOKS, LONG_NAME, LOOKS_WEIGHT, MOST_METHODS, NAME_LOOKS, NODE_LOOKS};
pub use room::{HOME_WEIGHT, LINE_WEIGHT, MOST_READ_WEIGHT, PART_WEIGHT};
pub use running::{runs, waits};

//! What a run ends with: its outcome, and the state of each activity as the run left it. Places of a
//! state are pairs of numbers, and futures have their values.
#![tactic(auto)]

mod ends;
mod entered;
mod values;

pub use ends::{EndState, RunEnd};
pub use entered::{At, Entered, Spot};
pub use values::{awaited, value_of};

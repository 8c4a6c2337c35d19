//! The states of reading: what the tokens so far have begun, and what the next one makes of it.
#![tactic(auto)]

mod change;
mod closing;
mod machine;
mod object;
mod state;

pub use machine::step;
pub use state::{Mode, Opener, Operand, State, start_state};

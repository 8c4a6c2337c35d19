//! The lines that show the state of an activity, as it is read through filled futures.
#![tactic(auto)]

mod below;
mod lines;
mod names;
mod seen;
mod sights;
mod state;
mod texts;
mod views;

pub use lines::state_lines;
pub use names::{push_future, push_name};
pub use seen::Seen;
pub use sights::{Sight, look_at};
pub use state::State;
pub use views::state_at;

//! Activities that a checkpoint keeps, made anew over code that grows.
#![tactic(auto)]

mod activities;
mod states;

pub use activities::{MadeActivity, make_activities, make_activity};
pub use states::make_state;

//! A core that is driven by a list of steps: whatever is lent, run, committed and delivered, in
//! that order.
#![tactic(auto)]

mod drivers;
mod driving;
mod steps;

pub use driving::drive;
pub use steps::Step;

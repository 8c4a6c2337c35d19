//! Tells the outcomes of a program, from the words of a call to its status.
#![tactic(auto)]

mod answer;
mod family;
mod given;
mod halt;
mod joined;
mod survey;
mod told;
mod top;
mod writing;

pub use joined::{ended_runs_are_alike, ended_runs_are_found, spent_runs_are_short};
pub use top::run_outcomes;

//! The program of many pairs of activities, which loads the runtime.
#![tactic(auto)]

mod pairs;

pub use pairs::make;

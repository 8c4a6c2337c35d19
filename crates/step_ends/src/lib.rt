//! The end of a run, told of its activities and its filled futures. A core and a replay end so.
#![tactic(auto)]

mod outcome;

pub use outcome::run_end_of;

//! Laws of journals that are done again, entry by entry. Each law is the contract of a function
//! that does nothing.
#![tactic(auto)]

mod reduced;

pub use reduced::{
    communications_are_last, lasts_are_reduced, needers_ask, rests_are_reduced, runs_are_reduced,
    steps_are_reduced,
};

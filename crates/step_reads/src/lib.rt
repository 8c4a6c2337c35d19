//! Strict operands as they are read through futures, and what a redex comes to by them.
#![tactic(auto)]

mod fetching;
mod members;
mod prospect;
mod reading;
mod rows;
mod seen;
mod strict;
mod telling;

pub use fetching::fetch_all;
pub use prospect::Prospect;
pub use strict::{Strict, strict_of};
pub use telling::{Reading, prospect_from, prospect_of};

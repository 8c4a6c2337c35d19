//! What one run tells of all others: whether it is the only one, and whether services could tell it
//! from another.
#![tactic(auto)]

mod arrivals;
mod difference;
mod labels;
mod ruling;

pub use difference::first_difference;
pub use ruling::{Ruling, rule};

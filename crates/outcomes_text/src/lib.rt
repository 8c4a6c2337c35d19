//! The text that tells the outcomes of a program: what a user sees of each end, and how many ends
//! look so.
#![tactic(auto)]

mod seen;
mod tally;
mod text;

pub use seen::seen_of;
pub use tally::{Share, Tally};
pub use text::tell;

//! Laws of journals that are written and checked as traces. Each law is the contract of a function
//! that does nothing.
#![tactic(auto)]

mod lines;
mod standings;

pub use lines::journals_have_lines;
pub use standings::verdicts_are_ends;

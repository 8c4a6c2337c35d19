//! Laws of checkpoint files: what is read of the text of a sound value, and the runs that go on from
//! a file. Each law is the contract of a function that does nothing.
#![tactic(auto)]

mod files;
mod rows;
mod texts;

pub use files::{files_are_own, files_are_resumed, runs_are_files};
pub use rows::{resumed_at_three, saved_at_three};
pub use texts::{saved_are_sure, texts_are_sure};

//! Runs that go on from the file of a checkpoint.
#![tactic(auto)]

mod files;
mod resumed;
mod stop;

pub use resumed::{resume_file, resume_file_saved};
pub use stop::FileStop;

//! Laws of the checkpoint files of programs that stand in bytes. Each law is the contract of a function
//! that does nothing.
#![tactic(auto)]

mod programs;
mod reports;

pub use programs::{prints_are_lines, programs_are_own, programs_are_resumed};
pub use reports::files_report_replays;

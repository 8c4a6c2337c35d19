//! The report of a run, with the ruling on it or without, and its summary, as their lines.
#![tactic(auto)]

mod lines;
mod report;
mod ruling;
mod summary;

pub use report::render;
pub use ruling::{render_ruled, rulings_are_passed_over};
pub use state_lines::push_name;
pub use summary::summarize;

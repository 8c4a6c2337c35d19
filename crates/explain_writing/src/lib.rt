//! How `asp-explain` writes: a text to one sink, or a message to the other, with the status that says
//! so.
#![tactic(auto)]

mod writing;

pub use writing::{status_of, tell, write_text};

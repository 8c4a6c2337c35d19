//! The words of `asp-outcomes`, and what they ask for.
#![tactic(auto)]

mod command;
mod task;

pub use task::{Choice, Task, Wanted, WordsRefused, read_words};

//! The words of the command line, and what they ask for.
#![tactic(auto)]

mod command;
mod error;
mod lines;
mod number;
mod settings;
mod task;
mod update;
mod wanted;

pub use error::WordsError;
pub use lines::{accepted_lines, plain_word_runs, refused_lines};
pub use number::number_in;
pub use settings::Settings;
pub use task::{Task, read_words};

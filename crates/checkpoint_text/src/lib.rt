//! Checkpoints as text: what is frozen of a run, in lines that people and tools can read.
#![tactic(auto)]

mod laws;
mod put;
mod rows;
mod terms;

pub use laws::checkpoints_are_read;
pub use put::{
    put_answer, put_future, put_name, put_number, put_output, put_reception, put_signed, put_text,
    put_words,
};
pub use rows::{item_rows, read_at_three, refused_checkpoints, stopped_at_three};
pub use terms::{MOST_NESTED, put_term};

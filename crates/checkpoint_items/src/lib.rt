//! The items of a checkpoint's lines, read one by one: numbers, texts, names, entries of logs and
//! lines of output. Each is found exactly if it is written so.
#![tactic(auto)]

mod error;
mod items;
mod lines;
mod names;
mod numbers;

pub use error::ReadError;
pub use items::Items;
pub use lines::{end_line, items_behind, read_homes};
pub use names::{
    name_of, read_answer, read_future, read_label, read_labels, read_name, read_output,
    read_reception, read_service, read_text, read_words,
};
pub use numbers::{read_byte, read_count, read_number, read_place, read_signed, read_small};

//! What the lines of reports and of traces are read by: a text cut at a byte, numbers in decimal,
//! names of activities and of futures. Each is found exactly if it is written so.
#![tactic(auto)]

mod names;
mod numbers;
mod parts;

pub use names::{future_of, is_future, name_of};
pub use numbers::{count_of, index_of, number_of, place_of};
pub use parts::cut;

//! Activities by numbers from 0, each with its name: here, or with a worker.
#![tactic(auto)]

mod seat;
mod seats;

pub use seat::Seat;
pub use seats::{MOST_ACTIVITIES, Seats};

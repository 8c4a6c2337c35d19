//! Places that are marked, with the first marked one from a place on, or in an open lane, and things
//! that are ticked off in order.
#![tactic(auto)]

mod lane;
mod lanes;
mod limits;
mod marks;
mod ticks;

pub use lane::Lane;
pub use lanes::{Lanes, Spot};
pub use limits::MOST_NUMBERED;
pub use marks::Marks;
pub use ticks::Ticks;

//! One value that racing workers share: who has the turn has the value, and all others wait for it
//! or rest.
#![tactic(auto)]

mod calls;
mod closing;
mod hub;
mod lends;
mod rule;
mod seat;
mod turns;
mod view;

pub use hub::{Full, Hub};
pub use lends::Lends;
pub use seat::Seat;

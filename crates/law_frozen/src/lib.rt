//! Laws of frozen configurations, which keep the pending requests alone: what was served before
//! makes no difference to what comes. Each law is the contract of a function that does nothing.
#![tactic(auto)]

mod frozen;
mod pending;
mod same;
mod thawed;

pub use frozen::{frozen_is_same, same_freezes_same};
pub use pending::{arrivals_wait, matches_are_pending, served_leave, serves_are_same};
pub use same::{moves_keep_same, same_is_equivalence, same_shows_same};
pub use thawed::{runs_are_led_back, thawed_are_first, thawed_are_whole};

//! The parts of a replay that need no population: names under numbers, what bounds a run, who is
//! next by name, what a log notes, where an outcome differs from logs and counts, and what a
//! listener is told.
#![tactic(auto)]

mod bounds;
mod difference;
mod notes;
mod numbers;
mod ready;
mod receptions;
mod roster;
mod telling;

pub use bounds::{Bounds, Next};
pub use difference::first_difference;
pub use notes::{Event, NoNotes, Note, Notes};
pub use numbers::Numbers;
pub use ready::{Least, Ready};
pub use receptions::{copies_of, is_from, is_poll, owner_of, same_log};
pub use roster::Roster;
pub use telling::{Known, behind, tell_fault, tell_given, tell_lines, tell_serve, tell_service};

//! Machines that are made anew: contexts and redexes are compiled, and frames are put together from
//! them.
#![tactic(auto)]

mod held;
mod laws;
mod machines;
mod objects;
mod restoring;

pub use held::{Held, Opened};
pub use laws::{
    held_stay, named_are_closed, names_are_taken_back, objects_are_restored, proper_may_come,
};
pub use machines::{Innermost, Suspended, restore};
pub use objects::object_places;
pub use restoring::{begin_at, hold, hold_all, rest_at, serve};

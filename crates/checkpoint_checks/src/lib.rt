//! Whether a checkpoint that was read is sound, so that a run can go on from it.
#![tactic(auto)]

mod activities;
mod cells;
mod homes;
mod laws;
mod names;
mod parcels;
mod standing;
mod whole;
mod within;
mod world;

pub use laws::fitting_is_sound;
pub use whole::is_sound;
pub use within::is_within;

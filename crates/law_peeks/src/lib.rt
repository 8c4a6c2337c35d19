//! Laws of values that a lease reads while others run. Each law is the contract of a function that
//! does nothing.
#![tactic(auto)]

mod commits;
mod events;
mod leases;
mod moves;
mod needs;
mod noted;

pub use commits::{moves_and_acts_are_commits, moves_are_commits};
pub use events::{moves_and_acts_are_events, moves_are_events};
pub use leases::{
    reads_and_acts_are_commits, reads_and_acts_are_events, reads_are_commits, reads_are_events,
};
pub use moves::{moves_are_reduced, moves_read_on, moves_run_on, peeks_are_needs};
pub use needs::{needs_keep_intents, needs_keep_readings, needs_keep_steps};
pub use noted::{moves_are_partable, notes_go_on, notes_tell};

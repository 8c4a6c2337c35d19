//! Laws of checkpoints: what a checkpoint has to have so that a run can go on from it, and that what
//! is frozen of a run has it. Each law is the contract of a function that does nothing.
#![tactic(auto)]

mod resumed;
mod saved;
mod sound;

pub use resumed::resumed_are_one_run;
pub use saved::{entries_keep_order, runs_are_saved, runs_are_saved_again, saved_are_sound};
pub use sound::{
    frozen_are_first, frozen_are_in_order, frozen_are_whole, terms_are_redexes, times_are_of_list,
};

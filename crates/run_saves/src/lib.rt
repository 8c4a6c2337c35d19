//! A run by workers, which is saved where its budget runs out.
#![tactic(auto)]

mod saved;

pub use saved::{Saved, run_saved, run_saved_again};

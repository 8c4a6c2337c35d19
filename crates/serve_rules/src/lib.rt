//! The labels that a `serve` asks for.
#![tactic(auto)]

mod laws;
mod wanted;

pub use laws::labels_are_of_objects;
pub use wanted::Wanted;

//! The futures that are filled, with their values, and where the walks from them end.
#![tactic(auto)]

mod chase;
mod links;
mod numbers;
mod table;
mod walks;

pub use chase::Chase;
pub use table::FutureTable;

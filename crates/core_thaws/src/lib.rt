//! How a core goes on from a configuration: its state, and what its edges are told.
#![tactic(auto)]

mod edges;
mod states;

pub use edges::tell;
pub use states::thawed;

//! The edges of a core: along which activities futures went, as reductions and deliveries tell it.
#![tactic(auto)]

mod edges;
mod futures;
mod passing;

pub use edges::Edges;

//! Calls on groups: what a call on a group and a `scatter` expand to, and the members of a group.
#![tactic(auto)]

mod groups;

pub use groups::{broadcast, member, scatter};

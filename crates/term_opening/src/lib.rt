//! Terms of a store before they are compiled: what is done already is taken out, and each place has
//! a name.
#![tactic(auto)]

mod holding;
mod naming;
mod opened;
mod opening;
mod terms;

pub use holding::{hold_context, hold_redex};
pub use naming::short;
pub use opened::open;
pub use opening::place_of;

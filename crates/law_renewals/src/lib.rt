//! Laws of leases that take more than their grants, where budget is left. Each law is the contract
//! of a function that does nothing.
#![tactic(auto)]

mod renewals;

pub use renewals::{long_leases_are_lawful, renewals_are_lawful, renewals_are_silent};

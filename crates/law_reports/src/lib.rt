//! That a report is read as what it was written from. No function computes anything: each stands
//! for its clause.
#![tactic(auto)]

mod laws;

pub use laws::{reports_are_read, reports_to_depths_are_read};

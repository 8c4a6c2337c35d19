//! Laws of logs that no service can tell apart. Each law is the contract of a function that does
//! nothing.
#![tactic(auto)]

mod correct;
mod told;

pub use correct::{served_alike_end_alike, served_alike_show_alike};
pub use told::{services_tell, services_tell_at};

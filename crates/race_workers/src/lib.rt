//! Workers that race for one core: each takes turns at its desk, and works on its leases between
//! them.
#![tactic(auto)]

mod seats;
mod work;
mod workers;

pub use race_desks::{Gate, OpenGate};
pub use workers::race;

//! Laws of waiting: for whom each activity waits that awaits a future, and that where nobody can go
//! on, the cause of every wait is told. Each law is the contract of a function that does nothing.
#![tactic(auto)]

mod waits;

pub use waits::{rests_are_caused, waits_are_caused, waits_are_found, waits_are_so};

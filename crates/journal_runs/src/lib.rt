//! A run on one thread that redoes the entries of a journal, and tells which entry no lawful journal
//! has. It does what the definitions allow, also where a core would have done something else.
#![tactic(auto)]

mod commits;
mod deliveries;
mod lends;
mod reducing;
mod runs;
mod standing;
mod stepping;

pub use runs::JournalRun;
pub use standing::Standing;

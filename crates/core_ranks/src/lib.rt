//! Where activities stand that are known by numbers: who may step, to whom a value is owed, and who
//! waits for which future.
#![tactic(auto)]

mod numbers;
mod rank;
mod ranks;
mod waiting;

pub use rank::Rank;
pub use ranks::Ranks;

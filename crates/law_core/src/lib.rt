//! Laws of cores over the definitions of journals: ranks, what is owed, verdicts, and what commits
//! are. Each law is the contract of a function that does nothing.
#![tactic(auto)]

mod commits;
mod events;
mod outcomes;
mod owed;
mod ranks;
mod readings;
mod receivers;
mod runs;
mod verdicts;

pub use commits::{acts_are_commits, runs_are_commits};
pub use events::{acts_are_events, runs_are_silent};
pub use outcomes::{journals_end, verdicts_spend};
pub use owed::{edges_are_first, edges_are_next, needs_are_first};
pub use ranks::{ranks_tell, receivers_rank, steps_keep_ranks, writes_keep_ranks};
pub use readings::acts_unpack_nothing;
pub use receivers::{deliveries_keep_rank, needs_keep_rank};
pub use runs::{lends_keep_ranks, ranks_tell_ready};
pub use verdicts::{verdicts_are_held, verdicts_are_told};

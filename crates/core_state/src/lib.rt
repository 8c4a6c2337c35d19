//! The state of a core, and what changes it: activities by numbers, each here or lent, the ranks,
//! the filled futures and the journal; leases that come back, with what their communications give;
//! and values that are delivered.
#![tactic(auto)]

mod acting;
mod begin;
mod change;
mod come_back;
mod coming;
mod commits;
mod deliveries;
mod due;
mod edge;
mod ends;
mod handing;
mod journal;
mod lease;
mod lend;
mod lends;
mod need;
mod next;
mod ranking;
mod spending;
mod standing;
mod state;
mod target;
mod verdicts;

pub use acting::bring_in;
pub use come_back::{rank_at, rank_of, receive_all};
pub use coming::come_in;
pub use commits::arrive;
pub use deliveries::{deliver, may_deliver};
pub use due::{due_edges_are_passed, owed_may_be_delivered};
pub use edge::deliver_edge;
pub use journal::Journal;
pub use lease::Lease;
pub use lends::is_lent;
pub use need::deliver_need;
pub use next::{Needed, next_need};
pub use spending::{is_used, left_with, with_communication};
pub use state::CoreState;
pub use verdicts::verdict;

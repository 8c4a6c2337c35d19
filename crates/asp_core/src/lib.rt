//! The core: activities that are lent, take contractions, and come back. What they did is
//! committed, values of futures are delivered as policies choose, and a journal is kept of all.
//! Whatever is lent, committed and delivered, in whatever order, the core is the run of its
//! journal. Its verdict and the end of its run are here too, and runs of a core on one thread.
#![tactic(auto)]

mod commits;
mod cores;
mod deliveries;
mod ends;
mod finishing;
mod first;
mod freezing;
mod gathering;
mod lends;
mod renewals;
mod thawing;

pub use cores::Core;
pub use finishing::{end_of_run, finish, run};
pub use first::First;
pub use freezing::Frozen;
pub use gathering::end;
pub use renewals::discard_lease;

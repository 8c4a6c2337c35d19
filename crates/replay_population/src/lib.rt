//! The activities of a run on one thread by their numbers, and the futures that are filled. A
//! population stands for a configuration, however that came about: a replay steps it, and what
//! redoes a journal or goes on from a configuration can.
#![tactic(auto)]

mod deliveries;
mod ends;
mod giving;
mod outlooks;
mod population;

pub use giving::discard_given;
pub use population::Population;
pub use replay_parts::Roster;

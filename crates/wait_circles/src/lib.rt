//! Who waits for whom: where a request went, who enters what is next in a log, where waits lead (each
//! to a last one, or into a circle, which is found once), and why each activity rests where nobody
//! can go on.
#![tactic(auto)]

mod entries;
mod targets;
mod walk;
mod ways;
mod whys;

pub use entries::{enterer_of, is_from, is_poll};
pub use targets::{Sent, Target, sent_to};
pub use ways::{Circle, End, Ways, ways_of};
pub use whys::{Why, why_of};

//! One activity of a run on one thread, with the requests that it received.
#![tactic(auto)]

mod act;
mod actor;
mod asked;
mod communicate;
mod filling;
mod held;
mod matching;
mod outlook;
mod parts;
mod running;
mod stance;

pub use act::Given;
pub use actor::Actor;
pub use outlook::Looked;
pub use parts::ActorParts;
pub use step_parts::{Outlook, Stance};

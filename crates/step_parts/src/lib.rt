//! Parts of an actor that need no machine: what an activity does next and where it stands, as they are
//! told; names of futures.
#![tactic(auto)]

mod names;
mod outlook;
mod stance;

pub use names::future_named;
pub use outlook::Outlook;
pub use stance::{Stance, free_stance};

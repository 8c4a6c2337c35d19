//! The search for all ends, over whatever runs to ends: whatever an end offers leads to an end, and
//! when nothing new is offered, the ends are all.
#![tactic(auto)]

mod progress;
mod search;

pub use progress::{Progress, ProgressBox};
pub use search::{Ends, Found, Stop, all_ends, check_ends};

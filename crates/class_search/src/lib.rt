//! The search for all ends of a program's runs by classes of labels: which ends it finds, what they
//! offer where one of their logs by classes is cut, and that they are complete where nothing is left.
#![tactic(auto)]

mod ends;
mod laws;
mod logs;
mod offers;

pub use ends::{FoundEnd, Offer, Sending};
pub use laws::closed_is_complete;
pub use logs::{ClassLog, begin_with, is_from, is_of, log_at};
pub use offers::{Cuts, all_offers};

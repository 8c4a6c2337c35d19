//! Who was passed which future, and to whom its value is owed.
#![tactic(auto)]

mod edge;
mod entering;
mod holders;
mod homes;
mod names;
mod numbered;
mod owed;
mod passings;
mod records;
mod settling;

pub use edge::EdgeNames;
pub use holders::Holders;

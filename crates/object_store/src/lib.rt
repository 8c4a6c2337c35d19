//! The store of an activity whose objects name their classes by number: its cells, and a way to find the
//! places that hold a future.
#![tactic(auto)]

mod attached;
mod finder;
mod index;
mod laws;
mod parted;
mod parts;
mod places;
mod putting;
mod stock;
mod store;

pub use laws::places_set_are_fields_set;
pub use store::Store;

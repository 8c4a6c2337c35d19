//! Laws of journals, of the edges that they leave, and of leases. Each law is the contract of a
//! function that does nothing.
#![tactic(auto)]

mod edges;
mod entered;
mod entries;
mod growing;
mod leases;
mod numbered;
mod runs;

pub use edges::{
    deliveries_update, edges_are_bounded, edges_are_distinct, edges_are_known, parcels_hold_less,
};
pub use entered::{edges_are_entered, lends_are_entered, needs_are_entered};
pub use entries::{
    budgets_are_kept, entries_keep_closed, entries_keep_sound, journals_reach, steps_are_local,
};
pub use growing::{entries_go_on, holders_go_on};
pub use leases::{
    bursts_are_counted, leases_are_one, leases_begin, leases_go_on, leases_last, leases_stay,
};
pub use numbered::{entries_keep_numbers, histories_are_numbered, start_is_first};
pub use runs::{
    effects_are_fresh, first_holders_are, holders_are_of_runs, holders_stay, homes_are_of_begun,
};

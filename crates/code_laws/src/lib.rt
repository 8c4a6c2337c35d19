//! Laws of code in environments: what the pieces of a table stand for, as a machine goes through
//! them. Each law is the contract of a function that does nothing.
#![tactic(auto)]

mod environments;
mod nodes;
mod rows;
mod splitting;

pub use environments::{environments_are_cut, environments_grow, puts_twice, terms_are_shown};
pub use nodes::{next_terms_stand, nodes_are_redexes, nodes_begin, places_are_taken};
pub use rows::{
    bindings_are_entered, bodies_are_entered, choices_go_on, objects_are_made, repetitions_go_on,
    sequences_go_on,
};
pub use splitting::{splits_are_redexes, splits_one_way, splits_plug_back};

//! Laws of chases: what they find, that they look far enough, how cycles are named, and what one
//! more filled future changes. Each law is the contract of a function that does nothing.
#![tactic(auto)]

mod chases;

pub use chases::{
    chases_end, chases_find, chases_stay_elsewhere, chases_stay_together, cycles_are_named,
    cycles_are_told, filled_is_of_root,
};

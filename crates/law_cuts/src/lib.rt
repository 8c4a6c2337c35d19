//! Laws of cuts in the past of a run: under given logs there is one least point at which an
//! activity has made so many reductions, and a search on demand finds it. Each law is the contract
//! of a function that does nothing.
#![tactic(auto)]

mod cuts;
mod wants;

pub use cuts::{
    cuts_are_found, cuts_are_one, goal_is_needed, needed_steps, start_is_on_way, wanted_are_needed,
    wants_end, way_ends,
};
pub use wants::wants_stay;

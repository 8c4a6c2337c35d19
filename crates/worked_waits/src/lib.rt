//! Worked rows of waiting: what is told of somebody who waits for good, in each of the five ways.
//! No function computes anything: each stands for its clauses.
#![tactic(auto)]

mod rows;

pub use rows::{asking_each_other, asking_itself, single, values};

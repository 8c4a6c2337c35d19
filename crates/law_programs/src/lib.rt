//! Laws of programs that were read and checked: all that they reach is closed in every sense, and
//! comes to no broken redex. Each law is the contract of a function that does nothing.
#![tactic(auto)]

mod programs;
mod worked;

pub use programs::{
    moves_keep_whole, programs_are_proper, reached_are_whole, reached_never_break, start_is_whole,
    whole_never_break,
};
pub use worked::{readable_programs, unreadable_programs};

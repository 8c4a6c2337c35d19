//! Programs as texts: the text of a program that was read is read as that program again, places aside.
#![tactic(auto)]

mod names;
mod printing;
mod terms;
mod text;

pub use printing::print_program;

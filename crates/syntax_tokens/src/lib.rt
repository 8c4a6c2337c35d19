//! The tokens of a text: which they are, where they stand, and the level that each one leaves.
#![tactic(auto)]

mod byte;
mod levels;
mod lexer;
mod token;
mod word;

pub use levels::{Bracket, Walk, flat_walk, walk_on};
pub use lexer::scan;
pub use token::{Cursor, Token};

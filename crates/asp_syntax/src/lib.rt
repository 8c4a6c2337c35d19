//! Reads programs: a text is a program of the grammar, or it has a first fault.
#![tactic(auto)]

mod error;
mod reading;

pub use error::{SyntaxError, SyntaxFault, SyntaxKind};
pub use reading::read_program;

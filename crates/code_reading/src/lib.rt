//! From code to terms: what a piece of code stands for in an environment, and the terms of a
//! machine, of its frames and of the services that are suspended. Nothing recurses on the number of
//! frames.
#![tactic(auto)]

mod built;
mod copies;
mod cursor;
mod decoder;
mod errors;
mod focus;
mod frames;
mod groups;
mod seen;
mod shown;
mod split;
mod terms;

pub use cursor::{Cursor, all_but, behind, below, innermost, last_of, up_to, waiting};
pub use errors::DecodeError;
pub use focus::taken_by;
pub use shown::{Shown, Suspended, show};
pub use terms::{call_of, context_of, location, redex_of, term_of};

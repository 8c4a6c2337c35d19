//! From checked programs to their code: the names that a body may use, with their slots, and the
//! nodes.
#![tactic(auto)]

mod free;
mod methods;
mod nodes;
mod program;
mod scope;
mod terms;

pub use program::{compile, compile_root, prelude};
pub use scope::{Binding, Scope, bound_with, head_slots, leaf_of};
pub use terms::compile_term;

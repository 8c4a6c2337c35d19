//! Whether terms are proper, and have no place beyond a size.
#![tactic(auto)]

mod bound;
mod heads;
mod laws;
mod names;
mod refusal;
mod walk;
mod whole;

pub use laws::{fitting_is_proper, fitting_method_is_proper, single_is_single};
pub use refusal::Refusal;
pub use whole::{check_contexts, check_methods, check_object, check_term};

//! What has to hold of a program before it runs: bound variables, single labels and parameters,
//! and one arity for each label, also where an activity begins with its method.
#![tactic(auto)]

mod arity;
mod bound;
mod checked;
mod fault;
mod heads;
mod least;
mod names;
mod no_places;
mod places;
mod walk;
mod whole;

pub use checked::Checked;
pub use fault::{CheckError, CheckFault, CheckKind};
pub use no_places::readable_has_no_places;
pub use whole::check;

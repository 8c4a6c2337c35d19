//! Policies: what is done for an activity that is passed a future.
#![tactic(auto)]

mod kinds;
mod passing;
mod plan;
mod policy;
mod script;
mod strategy;

pub use kinds::{BudgetedPolicy, ForwardPolicy, LazyPolicy, MessagePolicy};
pub use passing::{is_no_edge, is_sent};
pub use plan::Plan;
pub use policy::{PolicyBox, UpdatePolicy};
pub use script::{Answers, ScriptPolicy};
pub use strategy::{Policies, Strategy};

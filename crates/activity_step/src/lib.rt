//! One activity: a machine over the program's code, with its store and its output.
#![tactic(auto)]

mod activity;
mod advance;
mod calls;
mod communications;
mod groups;
mod objects;
mod passing;
mod performing;
mod places;
mod quick;
mod reducing;
mod restoring;
mod services;
mod standing;
mod starting;
mod state;
mod stops;
mod terms;
mod values;

pub use activity::Activity;
pub use advance::Advance;
pub use standing::Standing;
pub use state::State;

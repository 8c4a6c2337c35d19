//! Activities as they are read through filled futures: what a path finds in one.
#![tactic(auto)]

mod calls;
mod children;
mod code;
mod context;
mod focus;
mod labels;
mod reading;
mod search;
mod stack;
mod views;

pub use labels::{PathLabel, Root};
pub use reading::{Found, read_path};
pub use state_lines::{State, state_at, state_lines};
pub use views::view;

//! Where a machine with environments stands in the code of a program: its frames, its environment and
//! its operands.
#![tactic(auto)]

mod calls;
mod frames;
mod machine;
mod nodes;
mod rows;
mod services;
mod sites;

pub use calls::{Round, have_results, results_in, round_at};
pub use frames::{Focus, Form, Frame, Nested, Site, Spread};
pub use machine::{Futures, Machine};
pub use nodes::{call_label, child_at, in_place_count, next_child, node_at};

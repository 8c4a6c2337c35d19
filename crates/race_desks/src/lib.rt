//! What workers that race for a core share: a desk, at which they take turns, and what one does
//! with its lease between them.
#![tactic(auto)]

mod desk;
mod gate;
mod margin;
mod rows;
mod work;

pub use desk::{Desk, Next, SharedDesk};
pub use gate::{Gate, OpenGate};
pub use margin::Margin;
pub use rows::{Row, clear, empty_rows, fill};
pub use work::{leave, work_at};

//! Checkpoints read: what the text of one keeps, found exactly if it is written so.
#![tactic(auto)]

mod cells;
mod parts;
mod terms;

pub use cells::{read_cell, read_cells, read_parcel, read_request, read_requests, read_values};
pub use checkpoint_items::ReadError;
pub use parts::{CellText, ParcelText, RequestText};
pub use terms::read_term;

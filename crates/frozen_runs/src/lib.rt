//! Runs that are frozen as text: what checkpoints keep of cells, parcels and requests, by the code
//! that their objects are of.
#![tactic(auto)]

mod activities;
mod cells;
mod lines;
mod methods;
mod parcels;
mod redexes;
mod services;

pub use activities::activity_line;
pub use cells::put_cells;
pub use lines::{homes_line, values_line};
pub use parcels::{put_parcel, put_request};
pub use redexes::put_running;
pub use services::{put_services, put_terms};

//! What a checkpoint keeps, made anew over code that grows: cells, parcels and requests.
#![tactic(auto)]

mod cells;
mod laws;
mod objects;
mod parcels;
mod terms;

pub use cells::{make_cells, make_future};
pub use laws::{terms_run, terms_wait};
pub use parcels::{MadeParcel, MadeRequest, make_parcel, make_requests};
pub use terms::{MadeTerm, make_answer, make_services, make_term};

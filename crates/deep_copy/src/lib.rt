//! Deep copies between stores whose objects share their code: parcels.
#![tactic(auto)]

mod answers;
mod copied;
mod packing;
mod reached;
mod unpacking;
mod visiting;

pub use answers::shown_parcel;
pub use packing::pack;
pub use unpacking::{unpack, unpack_alone, unpack_at};

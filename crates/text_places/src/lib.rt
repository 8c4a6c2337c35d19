//! Where the bytes of a text stand, as people count lines and columns.
#![tactic(auto)]

mod position;

pub use position::{Position, Spot, position_of, spot_of};

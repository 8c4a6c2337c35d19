//! The picture of a run, as SVG: a line for each activity, an arrow for each request, a bar for each
//! service, dashes where somebody waits in the end, and the circles of waiting.

mod bars;
mod lanes;
mod layout;
mod marks;
mod picture;
mod run;
mod seen;
mod text;

pub use picture::{MOST_EVENTS, MOST_LANES};
pub use seen::draw;

//! Two runs of one program: the first request that came in another order, and the lines that
//! differ.

mod first;
mod laws;
mod lines;
mod logs;
mod order;
mod places;
mod same;
mod text;

pub use first::{Comparison, Difference, compare};
pub use laws::agreeing_are_compatible;
pub use lines::first_other_line;
pub use order::{Entry, OrderedRun, ordered_run};
pub use text::tell_difference;

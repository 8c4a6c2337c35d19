//! What others have of a reduction.

use code_table::Future;
use std::sync::Arc;

/// What changed for others, once what a reduction gives was handed on.
#[derive(Drop)]
pub enum Change {
    Nothing,
    /// An activity was made, under this number.
    Made(u32),
    /// The activity of this number received a request.
    Received(u32),
    /// This future was filled.
    Filled(Arc<Future>),
}

//! Requests.

use asp_model::ActivityName;
use code_table::{Future, Parcel, SharedLabel};
use std::sync::Arc;

/// What is asked of an activity. The arguments stay a closed copy until they are served.
#[derive(Drop)]
pub struct Request {
    pub label: SharedLabel,
    pub arguments: Parcel,
    /// The answer.
    pub future: Arc<Future>,
    /// Who asks.
    pub sender: ActivityName,
}

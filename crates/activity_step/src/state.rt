//! The state of an activity that contractions change.

use asp_model::Line;
use object_store::Store;
use step_machine::Machine;

/// Its term, its store, and its output in order.
#[derive(Drop)]
pub struct State {
    pub machine: Machine,
    pub store: Store,
    pub lines: Vec<Line>,
}

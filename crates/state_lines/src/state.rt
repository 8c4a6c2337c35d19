//! The state of an activity.

use code_table::{Code, Place};
use future_table::FutureTable;
use object_store::Store;
use step_machine::Machine;

/// What is read of an activity.
#[derive(Clone, Copy)]
pub struct State<'a> {
    pub code: &'a Code,
    /// Its term and its suspended services.
    pub machine: &'a Machine,
    pub store: &'a Store,
    pub futures: &'a FutureTable,
    /// Its active object.
    pub active: Place,
    /// The location that its term is, where it is done.
    pub result: Option<Place>,
}

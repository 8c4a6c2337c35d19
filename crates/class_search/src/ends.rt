//! Ends that were found, and what they offer, as data.

use crate::logs::ClassLog;
use asp_model::ActivityName;
use outcome_search::EndedRun;

/// A request that was sent. It leads a run on, and no clause speaks of it.
#[derive(Drop)]
pub struct Sending {
    pub by: ActivityName,
    pub to: ActivityName,
    pub class: u32,
}

/// A run after which nobody can step, with its logs by classes, and what was sent in it, in order.
#[derive(Drop)]
pub struct FoundEnd {
    pub run: EndedRun,
    pub logs: Vec<ClassLog>,
    pub sendings: Vec<Sending>,
}

/// Logs by classes with which a run can begin, and what is sent then.
#[derive(Drop)]
pub struct Offer {
    pub logs: Vec<ClassLog>,
    pub sendings: Vec<Sending>,
}

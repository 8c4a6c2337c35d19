//! What the services of a run could take, as data.

use crate::{ActivityName, Label};

/// A request that an activity received.
#[derive(Debug, Drop)]
pub struct Arrival {
    pub sender: ActivityName,
    pub label: Label,
}

/// The requests that an activity received, oldest first.
#[derive(Debug, Drop)]
pub struct Arrivals {
    pub items: Vec<Arrival>,
}

/// The labels of a `serve`.
#[derive(Debug, PartialEq, Eq, Drop)]
pub struct Labels {
    pub items: Vec<Label>,
}

/// Sets of labels.
#[derive(Debug, Drop)]
pub struct LabelLists {
    pub items: Vec<Labels>,
}

/// One activity: what it received, and what its services asked for.
#[derive(Debug, Drop)]
pub struct ServiceEntry {
    pub name: ActivityName,
    pub arrivals: Arrivals,
    /// It asked what is pending.
    pub polled: bool,
    /// The labels of each `serve` that took a request, and of that at which it stands.
    pub sets: LabelLists,
}

/// For each activity what its services could take, in strictly ascending order of names.
#[derive(Debug, Drop)]
pub struct Services {
    pub entries: Vec<ServiceEntry>,
}

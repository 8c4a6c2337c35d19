//! What is kept of one activity.

ghost use Rattle.std.specs.Prelude.{◌≡◌, OnOk, IsTrue, map};
ghost use Rattle.std.specs.List.{Contains};
ghost use Rattle.asp_model.specs.Shapes.{arrival_shape, labels_shape, service_entry_shape};
ghost use Rattle.serve_rules.specs.Wanted.{wanted_labels};
ghost use Rattle.replay_services.specs.Listeners.{IsWithSet, entry_of, heard_shape, nothing, with_arrival, with_poll};

use asp_model::{ActivityName, Arrival, Arrivals, LabelLists, Labels, ServiceEntry};
use serve_rules::Wanted;
use std::alloc::{AllocError, Global};

/// The requests that came to an activity, the labels of its services, each list of them once, and
/// whether it polled.
#[derive(Drop)]
pub struct Heard {
    pub arrivals: Vec<Arrival>,
    pub polled: bool,
    pub sets: Vec<Labels>,
}

impl Heard {
    /// Nothing is kept.
    pub fn new(alloc: Global) -> Heard
        ensures { heard_shape result ≡ nothing }
    {
        Heard {
            arrivals: Vec::new(alloc),
            polled: false,
            sets: Vec::new(alloc),
        }
    }

    /// What is kept, under a name.
    pub fn into_entry(self, name: ActivityName) -> ServiceEntry
        ensures { service_entry_shape result ≡ entry_of name (heard_shape self) }
    {
        ServiceEntry {
            name,
            arrivals: Arrivals {
                items: self.arrivals,
            },
            polled: self.polled,
            sets: LabelLists { items: self.sets },
        }
    }

    /// A request came.
    pub fn add_arrival(&mut self, arrival: Arrival) -> Result<(), AllocError>
        ensures { OnOk result (heard_shape self.new
            ≡ with_arrival (arrival_shape arrival) (heard_shape self.old)) }
    {
        self.arrivals.push(arrival)?;
        Ok(())
    }

    /// It polled.
    pub fn add_poll(&mut self)
        ensures { heard_shape self.new ≡ with_poll (heard_shape self.old) }
    {
        self.polled = true;
    }

    /// It stood at a `serve` with these labels.
    pub fn add_set(&mut self, alloc: Global, wanted: Wanted) -> Result<(), AllocError>
        ensures { let ls = wanted_labels wanted.entry in
            OnOk result (IsWithSet ls (heard_shape self.old) (heard_shape self.new)) }
    {
        if !has_set(&self.sets, wanted) {
            self.sets.push(wanted.copy(alloc)?)?;
        }
        Ok(())
    }
}

// One of the sets has these labels, in their order.
fn has_set(sets: &[Labels], wanted: Wanted) -> bool
    ensures { IsTrue result → Contains (map labels_shape sets.now) (wanted_labels wanted.entry) }
{
    for set in sets {
        if wanted.are(set) {
            return true;
        }
    }
    false
}

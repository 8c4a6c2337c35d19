//! The events that are asked for.

ghost use Rattle.std.specs.Prelude.{◌≡◌, ◌++◌, ◌∷◌, [], List, OnOk};
ghost use Rattle.explain.specs.Events.{RunEventShape, concerns, is_other as concerns_other};
ghost use Rattle.explain.specs.EventsHeard.{IsPage, event_shape, what_shape};

use crate::events::event::{RunEvent, What};
use asp_model::ActivityName;
use std::alloc::{AllocError, Global};

/// Which events are asked for.
#[derive(Drop)]
pub struct Wish {
    /// Those that concern this activity, or all.
    pub activity: Option<ActivityName>,
    /// So many of them are passed over.
    pub skip: u64,
    /// At most so many are kept.
    pub most: usize,
}

/// The events that are kept.
#[derive(Drop)]
pub struct Page {
    pub wish: Wish,
    /// How many were passed over.
    passed: u64,
    /// How many there are of those that concern the activity.
    pub all: u64,
    pub events: Vec<RunEvent>,
}

impl Page {
    /// No event.
    pub fn new(alloc: Global, wish: Wish) -> Page
        ensures wish { result.wish ≡ wish }
        ensures page { IsPage result [] }
    {
        Page {
            wish,
            passed: 0,
            all: 0,
            events: Vec::new(alloc),
        }
    }

    /// An event is kept if it is asked for.
    pub fn add(&mut self, event: RunEvent) -> Result<(), AllocError>
        ensures wish { OnOk result (self.new.wish ≡ self.old.wish) }
        ensures page { (es : List RunEventShape) → IsPage self.old es →
            OnOk result (IsPage self.new (es ++ event_shape event ∷ [])) }
    {
        if !does_concern(&self.wish.activity, &event) {
            return Ok(());
        }
        self.all = self.all.saturating_add(1);
        if self.passed < self.wish.skip {
            self.passed += 1;
            return Ok(());
        }
        if self.events.len() < self.wish.most {
            self.events.push(event)?;
        }
        Ok(())
    }
}

// An event concerns an activity that does it, that is created, or that a request comes to.
fn does_concern(activity: &Option<ActivityName>, event: &RunEvent) -> bool
    ensures { result ≡ concerns activity.now (event_shape event.now) }
{
    match activity {
        Some(name) => event.by == *name || is_other(name, &event.what),
        None => true,
    }
}

fn is_other(name: &ActivityName, what: &What) -> bool
    ensures { result ≡ concerns_other name.now (what_shape what.now) }
{
    match what {
        What::Creates(made) => made == name,
        What::Sends(to, _) => to == name,
        What::Serves(_) => false,
        What::Answers(_, _) => false,
        What::Polls => false,
        What::Prints(_) => false,
        What::Fails(_) => false,
    }
}

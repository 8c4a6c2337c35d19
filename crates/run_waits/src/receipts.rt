//! Where the requests of a replay went, kept by a listener.

ghost use Rattle.std.specs.Prelude.{◌≡◌, None, OnOk};
ghost use Rattle.asp_model.specs.declared.name.FutureName.{FutureName as Future};
ghost use Rattle.run_waits.specs.Targets.{IsSentTo, target_at, target_lent};

use asp_model::{ActivityName, FutureName, Label};
use replay_one::{Event, Note, Notes};
use std::alloc::{AllocError, Global};
use std::collections::BTreeMap;
use wait_circles::{Target, sent_to};

/// Where each request went.
#[derive(Drop)]
pub struct Receipts {
    alloc: Global,
    targets: BTreeMap<FutureName, Target>,
}

impl Receipts {
    /// No request was sent.
    pub fn new(alloc: Global) -> Receipts
        ensures none { (f : Future) → target_at result f ≡ None }
    {
        Receipts {
            alloc,
            targets: BTreeMap::new(alloc),
        }
    }

    /// Where the request of a future went, if it was sent.
    pub fn target(&self, future: &FutureName) -> Option<&Target>
        ensures target { target_lent result ≡ target_at self.now future.now }
    {
        self.targets.get(future)
    }

    // A request went there.
    fn add_target(
        &mut self,
        to: &ActivityName,
        label: &Label,
        future: &FutureName,
        at: Option<usize>,
    ) -> Result<(), AllocError>
        ensures sent { OnOk result
            (IsSentTo to.now label.now.text future.now self.old self.new) }
    {
        let sent = sent_to(self.alloc, to, label, future, at)?;
        self.targets.insert(sent.future, sent.target)?;
        Ok(())
    }
}

impl Notes for Receipts {
    ghost use Rattle.run_waits.specs.Targets.{Keeps};

    ghost tells = { Keeps };

    fn listens(&self) -> bool {
        true
    }

    fn hears_lines(&self) -> bool {
        false
    }

    fn hears_places(&self) -> bool {
        true
    }

    fn note(&mut self, note: Note) -> Result<(), AllocError> {
        match note.event {
            Event::Sent(to, label, future) => self.add_target(to, label, future, note.at),
            Event::Served(_) => Ok(()),
            Event::Made(_) => Ok(()),
            Event::Answered(_) => Ok(()),
            Event::Polled => Ok(()),
            Event::Printed(_) => Ok(()),
            Event::Standing(_) => Ok(()),
            Event::Faulted(_) => Ok(()),
        }
    }
}

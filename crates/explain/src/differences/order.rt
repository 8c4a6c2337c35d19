//! The replay that keeps the order in which the entries of logs are made.

ghost use Rattle.std.specs.Prelude.{◌≡◌, ◌∷◌, [], IfErr, IfOk, OnOk, Some, ◌++◌, map};
ghost use Rattle.asp_model.specs.Configuration.{From, Poll};
ghost use Rattle.asp_model.specs.Names.{Name};
ghost use Rattle.asp_model.specs.Outcome.{outcome_of};
ghost use Rattle.asp_model.specs.Replay.{Fits, log_in, replay as replay_of};
ghost use Rattle.asp_model.specs.Shapes.{counts_shape, lists_shape, outcome_shape, tree_of};
ghost use Rattle.replay_one.specs.Correct.{IsStop};
ghost use Rattle.replay_one.specs.Listed.{AreReplayable};
ghost use Rattle.replay_parts.specs.Notes.{replay_notes};
ghost use Rattle.explain.specs.Orders.{entries_of, order_of};
ghost use Rattle.explain.specs.OrderKept.{Tells, entry_shape, poll_of, request_of};

use asp_check::Checked;
use asp_model::{ActivityName, Counts, Label, Lists, Outcome, Reception};
use replay_one::{Event, Note, Notes, ReplayStop, replay_noting};
use std::alloc::{AllocError, Global};

/// An entry of a log.
#[derive(Drop)]
pub struct Entry {
    /// Whose log it is.
    pub to: ActivityName,
    pub noted: Reception,
    /// The label of the request, if it is one.
    pub label: Option<Label>,
}

/// The entries of all logs, in the order in which they are made.
#[derive(Drop)]
struct Order {
    alloc: Global,
    entries: Vec<Entry>,
}

impl Order {
    fn new(alloc: Global) -> Order
        ensures none { Tells result [] }
    {
        Order {
            alloc,
            entries: Vec::new(alloc),
        }
    }

    fn add_request(
        &mut self,
        to: &ActivityName,
        by: &ActivityName,
        label: &Label,
    ) -> Result<(), AllocError>
        ensures { let before = map entry_shape self.old.entries.items in OnOk result
            (map entry_shape self.new.entries.items
            ≡ before ++ request_of to.now by.now label.now.text ∷ []) }
    {
        let entry = Entry {
            to: to.copy(self.alloc)?,
            noted: Reception::From(by.copy(self.alloc)?),
            label: Some(label.copy(self.alloc)?),
        };
        self.entries.push(entry)?;
        Ok(())
    }

    fn add_poll(&mut self, by: &ActivityName) -> Result<(), AllocError>
        ensures { let before = map entry_shape self.old.entries.items in OnOk result
            (map entry_shape self.new.entries.items ≡ before ++ poll_of by.now ∷ []) }
    {
        let entry = Entry {
            to: by.copy(self.alloc)?,
            noted: Reception::Poll,
            label: None,
        };
        self.entries.push(entry)?;
        Ok(())
    }
}

impl Notes for Order {
    ghost use Rattle.explain.specs.OrderKept.{Tells};

    ghost tells = { Tells };

    fn listens(&self) -> bool {
        true
    }

    fn hears_lines(&self) -> bool {
        false
    }

    fn hears_places(&self) -> bool {
        false
    }

    fn note(&mut self, note: Note) -> Result<(), AllocError> {
        match note.event {
            Event::Sent(to, label, _) => self.add_request(to, note.by, label),
            Event::Polled => self.add_poll(note.by),
            Event::Served(_) => Ok(()),
            Event::Made(_) => Ok(()),
            Event::Answered(_) => Ok(()),
            Event::Printed(_) => Ok(()),
            Event::Standing(_) => Ok(()),
            Event::Faulted(_) => Ok(()),
        }
    }
}

/// What a replay leaves, and the order in which the entries of its logs were made.
#[derive(Drop)]
pub struct OrderedRun {
    pub outcome: Outcome,
    pub order: Vec<Entry>,
}

impl OrderedRun {
    /// It is not needed any more: who calls this need not prove its drop.
    pub fn discard(self) {
        drop(self);
    }
}

/// Replays a run of a program from its logs and its counts, and keeps the order in which the
/// entries of its logs are made. `are_replayable` tests what is asked of logs and counts.
pub fn ordered_run(
    alloc: Global,
    program: &Checked,
    lists: &Lists,
    counts: &Counts,
) -> Result<OrderedRun, ReplayStop>
    requires replayable { AreReplayable (lists_shape lists.now) (counts_shape counts.now) }
    ensures fits { IfOk result (λ r. Fits (tree_of program.now.program.root)
        (lists_shape lists.now) (counts_shape counts.now)) }
    ensures outcome { let last = replay_of (tree_of program.now.program.root)
        (lists_shape lists.now) (counts_shape counts.now) in
        IfOk result (λ r. outcome_shape r.outcome ≡ outcome_of last) }
    ensures order { let notes = replay_notes (tree_of program.now.program.root)
        (lists_shape lists.now) (counts_shape counts.now) in
        IfOk result (λ r. map entry_shape r.order.items ≡ order_of notes) }
    // Each log stands in it, in its own order.
    ensures logs { IfOk result (λ r. (n : Name) →
        entries_of n (map entry_shape r.order.items) ≡ log_in (lists_shape lists.now) n) }
    ensures diverged { IfErr result (IsStop (tree_of program.now.program.root)
        (lists_shape lists.now) (counts_shape counts.now)) }
{
    let mut order = Order::new(alloc);
    let end = replay_noting(alloc, program, lists, counts, &mut order)?;
    let outcome = end.into_outcome();
    Ok(OrderedRun {
        outcome,
        order: order.entries,
    })
}

//! Whether the logs of a run begin with others.

ghost use Rattle.std.specs.Prelude.{◌≡◌, ◌↔◌, IsTrue, map};
ghost use Rattle.std.specs.List.{starts_with};
ghost use Rattle.asp_model.specs.Configuration.{From, Poll};
ghost use Rattle.asp_model.specs.Replay.{log_in};
ghost use Rattle.asp_model.specs.Shapes.{lists_shape, reception_shape};
ghost use Rattle.asp_model.specs.Step.{same_reception as same_shape};
ghost use Rattle.law_families.specs.Families.{AreBeginnings};

use asp_model::{ActivityName, Lists, Reception};

/// The same sender, or two polls.
pub fn same_reception(reception: &Reception, other: &Reception) -> bool
    ensures same { result ≡ same_shape (reception_shape reception.now) (reception_shape other.now) }
{
    match reception {
        Reception::From(sender) => is_from(other, sender),
        Reception::Poll => matches!(other, Reception::Poll),
    }
}

fn is_from(reception: &Reception, name: &ActivityName) -> bool
    ensures { result ≡ same_shape (From name.now) (reception_shape reception.now) }
{
    match reception {
        Reception::From(sender) => name == sender,
        Reception::Poll => false,
    }
}

/// The log of an activity.
pub fn log_of<'a>(lists: &'a Lists, name: &ActivityName) -> &'a [Reception]
    ensures log { map reception_shape result.now ≡ log_in (lists_shape lists.now) name.now }
{
    for entry in &lists.entries {
        if *name == entry.0 {
            return &entry.1;
        }
    }
    &[]
}

/// Whether a log begins with another one.
fn begins(log: &[Reception], other: &[Reception]) -> bool
    ensures { let shapes = map reception_shape log.now in
        result ≡ starts_with same_shape shapes (map reception_shape other.now) }
{
    if log.len() < other.len() {
        return false;
    }
    for place in 0..other.len() {
        if !same_reception(&other[place], &log[place]) {
            return false;
        }
    }
    true
}

/// Whether the log of each activity begins with its other log.
pub fn begin_with(lists: &Lists, others: &Lists) -> bool
    ensures begin { IsTrue result ↔
        AreBeginnings (lists_shape others.now) (lists_shape lists.now) }
{
    for entry in &others.entries {
        if !begins(log_of(lists, &entry.0), log_of(others, &entry.0)) {
            return false;
        }
    }
    true
}

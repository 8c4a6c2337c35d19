//! What a log notes: whose it is, whether two are the same, copies.

ghost use Rattle.std.specs.Prelude.{◌≡◌, IfOk, map};
ghost use Rattle.std.specs.Cmp.Lexicographic.{pointwise};
ghost use Rattle.asp_model.specs.Configuration.{From, Poll};
ghost use Rattle.asp_model.specs.Shapes.{reception_shape};
ghost use Rattle.asp_model.specs.Step.{same_reception as same_shape};
ghost use Rattle.law_schedules.specs.Schedules.{IsOf};

use asp_model::{ActivityName, Reception};
use std::alloc::{AllocError, Global};

/// Whether it notes a request from an activity.
pub fn is_from(reception: &Reception, name: &ActivityName) -> bool
    ensures { result ≡ same_shape (From name.now) (reception_shape reception.now) }
{
    match reception {
        Reception::From(sender) => name == sender,
        Reception::Poll => false,
    }
}

/// Whether it notes a poll.
pub fn is_poll(reception: &Reception) -> bool
    ensures { result ≡ same_shape Poll (reception_shape reception.now) }
{
    matches!(reception, Reception::Poll)
}

/// Whose reception in the log of an activity it is: that of who sends, or the activity's own where
/// it polls.
pub fn owner_of<'a>(reception: &'a Reception, to: &'a ActivityName) -> &'a ActivityName
    ensures { IsOf result.now to.now (reception_shape reception.now) }
{
    match reception {
        Reception::From(sender) => sender,
        Reception::Poll => to,
    }
}

/// The same sender, or two polls.
fn same_reception(reception: &Reception, other: &Reception) -> bool
    ensures { result ≡ same_shape (reception_shape reception.now) (reception_shape other.now) }
{
    match reception {
        Reception::From(sender) => is_from(other, sender),
        Reception::Poll => is_poll(other),
    }
}

/// The same receptions in the same order.
pub fn same_log(log: &[Reception], other: &[Reception]) -> bool
    ensures { let shapes = map reception_shape log.now in
        result ≡ pointwise same_shape shapes (map reception_shape other.now) }
{
    if log.len() != other.len() {
        return false;
    }
    for place in 0..log.len() {
        if !same_reception(&log[place], &other[place]) {
            return false;
        }
    }
    true
}

fn copy_of(alloc: Global, reception: &Reception) -> Result<Reception, AllocError>
    ensures copy { IfOk result (λ x. reception_shape x ≡ reception_shape reception.now) }
{
    match reception {
        Reception::From(sender) => Ok(Reception::From(sender.copy(alloc)?)),
        Reception::Poll => Ok(Reception::Poll),
    }
}

/// A copy of a log.
pub fn copies_of(alloc: Global, log: &[Reception]) -> Result<Vec<Reception>, AllocError>
    ensures log { IfOk result
        (λ v. map reception_shape v.items ≡ map reception_shape log.now) }
{
    let mut copies = Vec::new(alloc);
    for reception in log {
        copies.push(copy_of(alloc, reception)?)?;
    }
    Ok(copies)
}

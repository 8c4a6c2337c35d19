//! Requests that were sent, and the logs by classes that they leave.

ghost use Rattle.std.specs.Prelude.{◌≡◌, ℕ, IfOk, map};
ghost use Rattle.asp_model.specs.Names.{Name};
ghost use Rattle.asp_model.specs.Shapes.{reception_shape};
ghost use Rattle.class_search.specs.Logs.{logs_of};
ghost use Rattle.replay_classes.specs.Sendings.{has_log, is_to as is_sent_to, logs_from};

use asp_model::{ActivityName, Reception};
use class_search::{ClassLog, Sending, is_of};
use std::alloc::{AllocError, Global};

/// Whether it was sent to an activity with a label of a class.
pub fn is_to(sending: &Sending, to: &ActivityName, class: u32) -> bool
    ensures to { result ≡ is_sent_to sending.now to.now class }
{
    *to == sending.to && class == sending.class
}

/// The same one.
pub fn copy_of(alloc: Global, sending: &Sending) -> Result<Sending, AllocError>
    ensures same { IfOk result (λ s. s ≡ sending.now) }
{
    Ok(Sending {
        by: sending.by.copy(alloc)?,
        to: sending.to.copy(alloc)?,
        class: sending.class,
    })
}

/// The same ones.
pub fn copies_of(alloc: Global, sendings: &[Sending]) -> Result<Vec<Sending>, AllocError>
    ensures same { IfOk result (λ v. v.items ≡ sendings.now) }
{
    let mut copies = Vec::new(alloc);
    for sending in sendings {
        copies.push(copy_of(alloc, sending)?)?;
    }
    Ok(copies)
}

/// The senders of what was sent to an activity with labels of a class.
fn senders_to(
    alloc: Global,
    sendings: &[Sending],
    to: &ActivityName,
    class: u32,
) -> Result<Vec<Reception>, AllocError>
    ensures senders { IfOk result
        (λ v. map reception_shape v.items ≡ logs_from sendings.now to.now class) }
{
    let mut senders = Vec::new(alloc);
    for sending in sendings {
        if is_to(sending, to, class) {
            senders.push(Reception::From(sending.by.copy(alloc)?))?;
        }
    }
    Ok(senders)
}

fn has_row(rows: &[ClassLog], to: &ActivityName, class: u32) -> bool
    ensures has { result ≡ has_log rows.now to.now class }
{
    for row in rows {
        if is_of(row, to, class) {
            return true;
        }
    }
    false
}

/// The logs by classes.
pub fn rows_of(alloc: Global, sendings: &[Sending]) -> Result<Vec<ClassLog>, AllocError>
    ensures logs { (q : Name) (κ : ℕ) →
        IfOk result (λ v. logs_of v.items q κ ≡ logs_from sendings.now q κ) }
{
    let mut rows = Vec::new(alloc);
    for sending in sendings {
        if !has_row(&rows, &sending.to, sending.class) {
            rows.push(ClassLog {
                to: sending.to.copy(alloc)?,
                class: sending.class,
                entries: senders_to(alloc, sendings, &sending.to, sending.class)?,
            })?;
        }
    }
    Ok(rows)
}

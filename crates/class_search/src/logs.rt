//! Logs by classes as data, and whether they begin with others.

ghost use Rattle.std.specs.Prelude.{◌≡◌, ◌↔◌, IsTrue, map};
ghost use Rattle.std.specs.List.{starts_with};
ghost use Rattle.asp_model.specs.Configuration.{From};
ghost use Rattle.asp_model.specs.Shapes.{reception_shape};
ghost use Rattle.asp_model.specs.Step.{same_reception as same_shape};
ghost use Rattle.class_search.specs.Logs.{HaveBegun, is_log, logs_of};

use asp_model::{ActivityName, Reception};

/// What an activity received with labels of a class, in order.
#[derive(Drop)]
pub struct ClassLog {
    pub to: ActivityName,
    pub class: u32,
    pub entries: Vec<Reception>,
}

/// The same sender, or two polls.
fn is_same(reception: &Reception, other: &Reception) -> bool
    ensures same { result ≡ same_shape (reception_shape reception.now) (reception_shape other.now) }
{
    match reception {
        Reception::From(sender) => is_from(other, sender),
        Reception::Poll => matches!(other, Reception::Poll),
    }
}

/// Whether it is an entry of this sender.
pub fn is_from(reception: &Reception, name: &ActivityName) -> bool
    ensures from { result ≡ same_shape (From name.now) (reception_shape reception.now) }
{
    match reception {
        Reception::From(sender) => name == sender,
        Reception::Poll => false,
    }
}

/// Whether a log begins with another one.
fn begins(log: &[Reception], other: &[Reception]) -> bool
    ensures { let shapes = map reception_shape log.now in
        result ≡ starts_with same_shape shapes (map reception_shape other.now) }
{
    if log.len() < other.len() {
        return false;
    }
    for place in 0..other.len() {
        if !is_same(&other[place], &log[place]) {
            return false;
        }
    }
    true
}

/// Whether it is the log of a class of an activity.
pub fn is_of(log: &ClassLog, to: &ActivityName, class: u32) -> bool
    ensures of { result ≡ is_log log.now to.now class }
{
    *to == log.to && class == log.class
}

/// The log of a class of an activity.
pub fn log_at<'a>(logs: &'a [ClassLog], to: &ActivityName, class: u32) -> &'a [Reception]
    ensures log { map reception_shape result.now ≡ logs_of logs.now to.now class }
{
    for log in logs {
        if is_of(log, to, class) {
            return &log.entries;
        }
    }
    &[]
}

/// Whether the log of each class of each activity begins with the other one.
pub fn begin_with(logs: &[ClassLog], others: &[ClassLog]) -> bool
    ensures begin { IsTrue result ↔ HaveBegun (logs_of others.now) (logs_of logs.now) }
{
    for log in others {
        let other = log_at(others, &log.to, log.class);
        if !begins(log_at(logs, &log.to, log.class), other) {
            return false;
        }
    }
    true
}

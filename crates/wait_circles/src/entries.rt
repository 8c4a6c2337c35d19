//! Who enters what is next in a log.

ghost use Rattle.std.specs.Prelude.{◌≡◌};
ghost use Rattle.asp_model.specs.Configuration.{From, Poll};
ghost use Rattle.asp_model.specs.Shapes.{reception_shape};
ghost use Rattle.asp_model.specs.Step.{is_reception, same_reception};
ghost use Rattle.law_cuts.specs.Wants.{enterer, enterer_of as enterer_shown};
ghost use Rattle.wait_circles.specs.Entries.{entry_lent, name_lent};

use asp_model::{ActivityName, Reception};

/// Who enters this in the log of an activity.
fn enterer_in<'a>(reception: &'a Reception, to: &'a ActivityName) -> &'a ActivityName
    ensures { result.now ≡ enterer to.now (reception_shape reception.now) }
{
    match reception {
        Reception::From(sender) => sender,
        Reception::Poll => to,
    }
}

/// Who enters an entry in the log of an activity, if there is one.
pub fn enterer_of<'a>(
    entry: Option<&'a Reception>,
    to: &'a ActivityName,
) -> Option<&'a ActivityName>
    ensures { name_lent result ≡ enterer_shown to.now (entry_lent entry.entry) }
{
    match entry {
        Some(reception) => Some(enterer_in(reception, to)),
        None => None,
    }
}

fn notes_sender(reception: &Reception, name: &ActivityName) -> bool
    ensures { result ≡ same_reception (From name.now) (reception_shape reception.now) }
{
    match reception {
        Reception::From(sender) => name == sender,
        Reception::Poll => false,
    }
}

/// Whether the entry is there, and notes a request from this activity.
pub fn is_from(entry: Option<&Reception>, name: &ActivityName) -> bool
    ensures { result ≡ is_reception (From name.now) (entry_lent entry.entry) }
{
    match entry {
        Some(reception) => notes_sender(reception, name),
        None => false,
    }
}

fn notes_poll(reception: &Reception) -> bool
    ensures { result ≡ same_reception Poll (reception_shape reception.now) }
{
    matches!(reception, Reception::Poll)
}

/// Whether the entry is there, and notes a poll.
pub fn is_poll(entry: Option<&Reception>) -> bool
    ensures { result ≡ is_reception Poll (entry_lent entry.entry) }
{
    match entry {
        Some(reception) => notes_poll(reception),
        None => false,
    }
}

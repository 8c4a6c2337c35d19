//! The passings of edges whose values may be sent, in order.

ghost use Rattle.std.specs.Prelude.{◌≡◌, None, OnOk, Some, true};
ghost use Rattle.asp_model.specs.Shapes.{choice_shape};
ghost use Rattle.future_update.specs.Passings.{is_kept, may_send};

use crate::numbered::Passing;
use asp_model::Choice;
use std::alloc::AllocError;
use std::collections::BTreeSet;

#[derive(Drop)]
pub struct Passings {
    pub sorted: BTreeSet<Passing>,
    /// The one that came last, until there is room for another.
    pub last: Option<Passing>,
}

impl Passings {
    /// Makes room for one more.
    pub fn reserve(&mut self) -> Result<(), AllocError>
        ensures kept { (k : Passing) → is_kept self.old k ≡ true → is_kept self.new k ≡ true }
        ensures room { OnOk result (self.new.last ≡ None) }
    {
        if let Some(last) = self.last {
            self.sorted.insert(last)?;
            self.last = None;
        }
        Ok(())
    }
}

/// Whether the value of an edge with this answer may be sent without a need.
pub fn is_sending(answer: Choice) -> bool
    ensures sends { result ≡ may_send (Some (choice_shape answer)) }
{
    !matches!(answer, Choice::Leave)
}

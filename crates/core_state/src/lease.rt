//! An activity that somebody works on.

ghost use Rattle.std.specs.Prelude.{◌≡◌, ◌⊎◌, Err, List, OnErr, OnOk, alloc_error, true};
ghost use Rattle.asp_model.specs.History.{HistoryShape};
ghost use Rattle.code_table.specs.declared.code.Node.{Node as NodeShape};
ghost use Rattle.core_state.specs.Leases.{HasStopped, IsLease};

use std::alloc::{AllocError, Global};
use step_activity::Actor;

/// An activity that was lent, with a grant of reductions. It needs nothing of the core.
#[derive(Drop)]
pub struct Lease {
    pub alloc: Global,
    pub number: u32,
    pub burst: u64,
    pub grant: u64,
    pub taken: u64,
    pub spent: bool,
    pub actor: Box<Actor>,
}

impl Lease {
    /// The number of its activity.
    pub fn number(&self) -> u32
        ensures number { result ≡ self.now.number }
    {
        self.number
    }

    /// Which lease of its core it is, counted from 1.
    pub fn burst(&self) -> u64
        ensures burst { result ≡ self.now.burst }
    {
        self.burst
    }

    /// Takes contractions of its activity that need no other, until its grant is used or the
    /// activity stops. After `AllocError` it is spent.
    pub fn run(&mut self) -> Result<(), AllocError>
        ensures lease { (h : HistoryShape) (code : List NodeShape) → IsLease h code self.old →
            IsLease h code self.new }
        ensures stops { (h : HistoryShape) (code : List NodeShape) → IsLease h code self.old →
            OnOk result (HasStopped h code self.new) }
        ensures number { self.new.number ≡ self.old.number }
        ensures burst { self.new.burst ≡ self.old.burst }
        ensures spent { self.old.spent ≡ true → result ≡ Err alloc_error }
        ensures gives_up { OnErr result (self.new.spent ≡ true) }
    {
        if self.spent {
            return Err(AllocError);
        }
        let left = self.grant.saturating_sub(self.taken);
        match self.actor.as_mut().run(self.alloc, left) {
            Ok(taken) => {
                self.taken = self.taken.saturating_add(taken);
                Ok(())
            }
            Err(error) => {
                self.spent = true;
                Err(error)
            }
        }
    }
}

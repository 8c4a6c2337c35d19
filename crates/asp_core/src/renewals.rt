//! A lease that goes on beyond its grant.

ghost use Rattle.std.specs.Prelude.{◌≡◌, ◌<◌, Err, OnErr, OnOk, alloc_error, false, true};
ghost use Rattle.asp_model.specs.History.{BeginsWith};
ghost use Rattle.def_journals.specs.Journals.{RunShape};
ghost use Rattle.long_leases.specs.LongLeases.{IsLongLease};
ghost use Rattle.asp_core.specs.Chosen.{StaysChosen};
ghost use Rattle.asp_core.specs.Cores.{IsKept, IsRun, code_of, history_of};
ghost use Rattle.asp_core.specs.Plans.{StayByPlan};
ghost use Rattle.asp_core.specs.Renewals.{IsRenewedIn, IsReservedFor};
ghost use Rattle.asp_core.specs.Stopping.{StaysStopped};

use crate::cores::Core;
use long_leases::{LongLease, renew};
use std::alloc::AllocError;
use update_policy::UpdatePolicy;

impl<P: UpdatePolicy> Core<P> {
    /// How much of the budget is left.
    pub fn left(&self) -> u64
        ensures left { (s : RunShape) → IsRun self.now s → result ≡ s.left }
    {
        self.state.left
    }

    /// A lease that took more than its grant comes back with the whole grant, and is lent again at
    /// once, with the next of its grants. That much of the budget has to be left. Nobody else is
    /// concerned: nothing is given to others, and no policy is asked.
    pub fn renew(&mut self, long: &mut LongLease) -> Result<(), AllocError>
        requires kept { IsKept self.old }
        requires lease { IsLongLease (history_of self.old) (code_of self.old) long.old }
        requires beyond { long.old.lease.grant < long.old.lease.taken }
        requires reserved { IsReservedFor self.old long.old }
        ensures renewed { (s : RunShape) → IsRun self.old s →
            (l : IsLongLease (history_of self.old) (code_of self.old) long.old) →
            OnOk result (IsRenewedIn self.old s long.old l self.new long.new) }
        ensures fresh { OnOk result (long.old.lease.spent ≡ false) }
        ensures by_plan { OnOk result
            (StayByPlan P.answer P.asked self.old.edges self.new.edges) }
        ensures chosen { OnOk result (StaysChosen self.old self.new) }
        ensures stopped { OnOk result (StaysStopped (history_of self.old) (history_of self.new)) }
        ensures spent { self.old.spent ≡ true → result ≡ Err alloc_error }
        ensures gives_up { OnErr result (self.new.spent ≡ true) }
        ensures err { OnErr result (history_of self.new ≡ history_of self.old) }
        ensures kept { IsKept self.new }
        ensures begins { BeginsWith (history_of self.new) (history_of self.old) }
        ensures code { code_of self.new ≡ code_of self.old }
    {
        if self.spent {
            return Err(AllocError);
        }
        self.spent = true;
        renew(&mut self.state, long)?;
        self.spent = false;
        Ok(())
    }
}

/// Gives a lease up, wherever it stands. Whoever calls this proves no drop of an activity.
pub fn discard_lease(long: LongLease) {
    drop(long);
}

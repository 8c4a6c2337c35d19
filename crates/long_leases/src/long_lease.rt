//! A lease with further grants.

ghost use Rattle.std.specs.Prelude.{
  ◌≡◌,
  ◌*◌,
  ◌<◌,
  ◌≤◌,
  ◌^◌,
  Err,
  List,
  OnErr,
  OnOk,
  alloc_error,
  nat_lt,
  true,
};
ghost use Rattle.asp_model.specs.History.{HistoryShape};
ghost use Rattle.asp_model.specs.declared.limits.TheConstants.{MOST_GRANTED};
ghost use Rattle.code_table.specs.declared.code.Node.{Node as NodeShape};
ghost use Rattle.core_state.specs.Leases.{HasStopped, IsLease};
ghost use Rattle.long_leases.specs.LongLeases.{HasEnded, IsLongLease};

use asp_model::MOST_GRANTED;
use core_state::Lease;
use std::alloc::AllocError;

/// A lease that may go on beyond its grant, by so many whole grants more. Whoever lends it keeps that
/// much of the budget for it.
#[derive(Drop)]
pub struct LongLease {
    pub lease: Lease,
    pub rounds: u32,
}

/// How many contractions so many grants are.
pub fn contractions(rounds: u32) -> u64
    ensures contractions { result ≡ rounds * MOST_GRANTED }
    ensures few { result < 2 ^ 38 }
{
    rounds as u64 * MOST_GRANTED
}

impl LongLease {
    /// A lease, with grants that may follow its own.
    pub fn of(lease: Lease, rounds: u32) -> LongLease
        ensures lease { result.lease ≡ lease }
        ensures rounds { result.rounds ≡ rounds }
        ensures long { (h : HistoryShape) (code : List NodeShape) → IsLease h code lease →
            IsLongLease h code result }
    {
        LongLease { lease, rounds }
    }

    /// Takes contractions of its activity that need no other, until all its grants are used or the
    /// activity stops. After `AllocError` it is spent.
    pub fn run(&mut self) -> Result<(), AllocError>
        ensures lease { (h : HistoryShape) (code : List NodeShape) → IsLongLease h code self.old →
            IsLongLease h code self.new }
        ensures ends { (h : HistoryShape) (code : List NodeShape) → IsLongLease h code self.old →
            OnOk result (HasEnded h code self.new) }
        ensures number { self.new.lease.number ≡ self.old.lease.number }
        ensures burst { self.new.lease.burst ≡ self.old.lease.burst }
        ensures rounds { self.new.rounds ≡ self.old.rounds }
        ensures spent { self.old.lease.spent ≡ true → result ≡ Err alloc_error }
        ensures gives_up { OnErr result (self.new.lease.spent ≡ true) }
    {
        if self.lease.spent {
            return Err(AllocError);
        }
        let most = self.lease.grant.saturating_add(contractions(self.rounds));
        let left = most.saturating_sub(self.lease.taken);
        match self.lease.actor.as_mut().run(self.lease.alloc, left) {
            Ok(taken) => {
                self.lease.taken = self.lease.taken.saturating_add(taken);
                Ok(())
            }
            Err(error) => {
                self.lease.spent = true;
                Err(error)
            }
        }
    }

    /// Whether it took more than its grant.
    pub fn goes_beyond(&self) -> bool
        ensures beyond { result ≡ nat_lt self.now.lease.grant self.now.lease.taken }
    {
        self.lease.grant < self.lease.taken
    }

    /// The lease, where it took no more than its grant.
    pub fn into_lease(self) -> Lease
        requires within { self.lease.taken ≤ self.lease.grant }
        ensures same { result ≡ self.lease }
        ensures lease { (h : HistoryShape) (code : List NodeShape) → IsLongLease h code self →
            IsLease h code result }
        ensures stopped { (h : HistoryShape) (code : List NodeShape) → HasEnded h code self →
            HasStopped h code result }
    {
        let LongLease { lease, rounds: _ } = self;
        lease
    }
}

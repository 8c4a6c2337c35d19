//! What a worker does at the desk while it has the turn.

ghost use Rattle.std.specs.Prelude.{◌≡◌, ◌<◌, IfOk, IfSome, None, Some, ℕ};
ghost use Rattle.asp_core.specs.Cores.{IsHome, IsKept};
ghost use Rattle.long_leases.specs.LongLeases.{IsLongLease};
ghost use Rattle.race_desks.specs.Desks.{IsOrderly, code_at, core_at, history_at, row_at, seats_at};
ghost use Rattle.race_desks.specs.Turns.{
  HasLease,
  IsFinished,
  IsOwedAt,
  IsTurn,
  MayDeliverAt,
  row_of,
};

use super::keeping::{further_grants, leaves_reserve};
use super::settling::bring_back;
use super::{Desk, Next};
use crate::rows::{clear, empty_rows, fill};
use crate::work::leave;
use asp_core::Core;
use asp_model::{Delivery, MOST_WORKERS};
use long_leases::LongLease;
use std::alloc::{AllocError, Global};
use std::mem;
use update_policy::UpdatePolicy;

/// How many values are delivered in one turn.
const MOST_DELIVERED: u32 = 64;

impl<P: UpdatePolicy + Drop> Desk<P> {
    /// A desk for so many seats, which have nothing out.
    pub(crate) fn new(alloc: Global, core: Core<P>, seats: u32) -> Result<Desk<P>, AllocError>
        requires kept { IsKept core }
        requires home { IsHome core }
        ensures core { IfOk result (λ desk. core_at desk ≡ core) }
        ensures seats { IfOk result (λ desk. seats_at desk ≡ seats) }
        ensures empty { IfOk result (λ desk. (n : ℕ) → row_at desk n ≡ None) }
        ensures orderly { IfOk result (λ desk. IsOrderly desk) }
    {
        let rows = empty_rows(alloc, seats)?;
        Ok(Desk {
            core,
            rows,
            leases: 0,
            busy: 0,
            reserved: 0,
        })
    }

    /// The core.
    pub(crate) fn into_core(self) -> Core<P>
        ensures core { result ≡ core_at self }
    {
        let Desk {
            core,
            rows: _,
            leases: _,
            busy: _,
            reserved: _,
        } = self;
        core
    }

    /// One turn of a worker. The lease that it had comes back, what is owed is delivered, and the
    /// worker gets the activity that came back, where that is ready, or else the first that is. One
    /// that may rest gets none where another worker has a lease: that one comes back, and takes
    /// what is ready. It also tells whether others may find work, or are to end.
    pub(crate) fn turn(
        &mut self,
        seat: u32,
        held: &mut Option<LongLease>,
        may_rest: bool,
    ) -> (Next, bool)
        requires orderly { IsOrderly self.old }
        requires seat { seat < seats_at self.old }
        requires held { HasLease IsFinished self.old seat held.old }
        ensures turn { IsTurn P.answer P.asked seat self.old self.new }
        ensures lease { HasLease IsLongLease self.new seat held.new }
    {
        let number = self.take_in(seat, held);
        if !self.deliver_owed() {
            return (Next::Again, true);
        }
        if may_rest && self.has_leases() {
            return (Next::Rest, false);
        }
        leave(mem::replace(held, self.lend(seat, number)));
        if held.is_some() {
            return (Next::Run, self.core.next_ready().is_some());
        }
        if self.is_over() {
            return (Next::End, true);
        }
        (Next::Rest, false)
    }

    // The lease comes back, if the seat has one. Its row is empty then, also where memory ran out.
    fn take_in(&mut self, seat: u32, held: &mut Option<LongLease>) -> Option<u32>
        requires orderly { IsOrderly self.old }
        requires seat { seat < seats_at self.old }
        requires held { HasLease IsFinished self.old seat held.old }
        ensures turn { IsTurn P.answer P.asked seat self.old self.new }
        ensures free { row_at self.new seat ≡ None }
        ensures none { held.new ≡ None }
    {
        let lease = held.take()?;
        let number = lease.lease.number();
        self.commit(seat, lease);
        Some(number)
    }

    // The seat's lease, which has ended, is committed, grant by grant.
    fn commit(&mut self, seat: u32, lease: LongLease)
        requires orderly { IsOrderly self.old }
        requires seat { seat < seats_at self.old }
        requires row { row_at self.old seat ≡ row_of lease }
        requires lease { IsFinished (history_at self.old) (code_at self.old) lease }
        ensures turn { IsTurn P.answer P.asked seat self.old self.new }
        ensures free { row_at self.new seat ≡ None }
    {
        clear(&mut self.rows, seat);
        self.leases = self.leases.saturating_sub(1);
        self.busy = self.busy.saturating_sub(seat % 2);
        self.reserved -= lease.rounds as u64;
        let _back = bring_back(&mut self.core, lease);
    }

    // Delivers what is owed, up to a limit. It tells whether that was all.
    fn deliver_owed(&mut self) -> bool
        requires orderly { IsOrderly self.old }
        ensures turn { (n : ℕ) → IsTurn P.answer P.asked n self.old self.new }
        ensures rows { (n : ℕ) → row_at self.new n ≡ row_at self.old n }
    {
        for _ in 0..MOST_DELIVERED {
            if !self.deliver_next() {
                return true;
            }
        }
        false
    }

    // Delivers what is owed next. It tells whether more may be owed.
    fn deliver_next(&mut self) -> bool
        requires orderly { IsOrderly self.old }
        ensures turn { (n : ℕ) → IsTurn P.answer P.asked n self.old self.new }
        ensures rows { (n : ℕ) → row_at self.new n ≡ row_at self.old n }
    {
        if self.core.owes_nothing() {
            return false;
        }
        let Some(delivery) = self.next_delivery() else {
            return false;
        };
        self.core.deliver(&delivery).is_ok()
    }

    // What is owed next, if memory suffices to tell it.
    fn next_delivery(&mut self) -> Option<Delivery>
        requires orderly { IsOrderly self.old }
        ensures turn { (n : ℕ) → IsTurn P.answer P.asked n self.old self.new }
        ensures rows { (n : ℕ) → row_at self.new n ≡ row_at self.old n }
        ensures may { IfSome result (MayDeliverAt self.new) }
        ensures owed { IfSome result (IsOwedAt self.new) }
    {
        let Ok(owed) = self.core.next_owed() else {
            return None;
        };
        owed
    }

    // An activity for the seat: that of the number, where it is ready, or else the first that is.
    fn lend(&mut self, seat: u32, number: Option<u32>) -> Option<LongLease>
        requires orderly { IsOrderly self.old }
        requires seat { seat < seats_at self.old }
        requires free { row_at self.old seat ≡ None }
        ensures turn { IsTurn P.answer P.asked seat self.old self.new }
        ensures lease { HasLease IsLongLease self.new seat result }
    {
        match self.lend_again(seat, number) {
            Some(lease) => Some(lease),
            None => self.lend_first(seat),
        }
    }

    // The activity of the number, if there is one.
    fn lend_again(&mut self, seat: u32, number: Option<u32>) -> Option<LongLease>
        requires orderly { IsOrderly self.old }
        requires seat { seat < seats_at self.old }
        requires free { row_at self.old seat ≡ None }
        ensures turn { IsTurn P.answer P.asked seat self.old self.new }
        ensures lease { HasLease IsLongLease self.new seat result }
    {
        let number = number?;
        self.lend_one(seat, number)
    }

    // The first activity that is ready.
    fn lend_first(&mut self, seat: u32) -> Option<LongLease>
        requires orderly { IsOrderly self.old }
        requires seat { seat < seats_at self.old }
        requires free { row_at self.old seat ≡ None }
        ensures turn { IsTurn P.answer P.asked seat self.old self.new }
        ensures lease { HasLease IsLongLease self.new seat result }
    {
        let number = self.core.next_ready()?;
        self.lend_one(seat, number)
    }

    // The activity of the number, where it is ready, and the lease leaves what is kept for others:
    // somebody else has a lease then.
    fn lend_one(&mut self, seat: u32, number: u32) -> Option<LongLease>
        requires orderly { IsOrderly self.old }
        requires seat { seat < seats_at self.old }
        requires free { row_at self.old seat ≡ None }
        ensures turn { IsTurn P.answer P.asked seat self.old self.new }
        ensures lease { HasLease IsLongLease self.new seat result }
    {
        if number as usize >= self.core.activities() {
            return None;
        }
        let before = self.core.left();
        if !leaves_reserve(before, self.reserved) {
            return None;
        }
        let lease = self.core.lend(number)?;
        let after = self.core.left();
        let rounds = further_grants(after, self.reserved, self.workers());
        fill(&mut self.rows, seat, lease.number(), lease.burst(), rounds);
        self.reserved += rounds as u64;
        self.leases = self.leases.saturating_add(1);
        self.busy = self.busy.saturating_add(seat % 2);
        Some(LongLease::of(lease, rounds))
    }

    // How many workers there are: each has two seats.
    fn workers(&self) -> u32 {
        (self.rows.len() / 2).min(MOST_WORKERS as usize) as u32
    }

    /// Whether there are several workers, and each has a lease at its first seat: so nobody waits for
    /// what is ready.
    pub(crate) fn are_all_busy(&self) -> bool {
        let workers = self.rows.len() / 2;
        workers > 1 && self.busy as usize >= workers
    }

    // Whether somebody has a lease.
    fn has_leases(&self) -> bool {
        self.leases > 0
    }

    // Whether nothing is left to do: the verdict is there, or the core is spent.
    fn is_over(&self) -> bool
        requires orderly { IsOrderly self.now }
    {
        self.core.is_spent() || self.core.verdict().is_some()
    }
}

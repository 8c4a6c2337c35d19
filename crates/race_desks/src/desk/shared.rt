//! What a desk tells a hub.

ghost use Rattle.std.specs.Prelude.{◌≡◌, ◌<◌, IfOk, None, false, ℕ};
ghost use Rattle.asp_core.specs.Cores.{IsHome, IsKept};
ghost use Rattle.long_leases.specs.LongLeases.{IsLongLease};
ghost use Rattle.race_desks.specs.Desks.{IsOrderly, core_at, row_at, seats_at};
ghost use Rattle.race_desks.specs.Turns.{HasLease, IsFinished, IsTurn, desk_in};

use super::{Desk, Next, SharedDesk};
use asp_core::Core;
use long_leases::LongLease;
use std::alloc::{AllocError, Global};
use turn_hub::Lends;
use update_policy::UpdatePolicy;

impl<P: UpdatePolicy + Drop> Lends for SharedDesk<P> {
    ghost use Rattle.race_desks.specs.Desks.{KeepsDesk, history_at, row_at};
    ghost use Rattle.race_desks.specs.Turns.{desk_in};

    ghost history = { λ x. history_at (desk_in x) };

    ghost out = { λ x n. row_at (desk_in x) n };

    ghost keeps = { λ first x. KeepsDesk P.answer P.asked (desk_in first) (desk_in x) };
}

impl<P: UpdatePolicy + Drop> SharedDesk<P> {
    /// A desk for so many seats, which have nothing out.
    pub fn new(alloc: Global, core: Core<P>, seats: u32) -> Result<Self, AllocError>
        requires kept { IsKept core }
        requires home { IsHome core }
        ensures core { IfOk result (λ x. core_at (desk_in x) ≡ core) }
        ensures seats { IfOk result (λ x. seats_at (desk_in x) ≡ seats) }
        ensures empty { IfOk result (λ x. (n : ℕ) → row_at (desk_in x) n ≡ None) }
        ensures orderly { IfOk result (λ x. IsOrderly (desk_in x)) }
    {
        let desk = Desk::new(alloc, core, seats)?;
        let desk = Box::new(alloc, desk)?;
        Ok(SharedDesk { desk })
    }

    /// The core, where it is not spent.
    pub fn into_core(self) -> Result<Core<P>, AllocError>
        ensures core { IfOk result (λ core. core ≡ core_at (desk_in self)) }
        ensures fresh { IfOk result (λ core. core.spent ≡ false) }
    {
        let SharedDesk { desk } = self;
        let core = Box::into_inner(desk).into_core();
        if core.is_spent() {
            return Err(AllocError);
        }
        Ok(core)
    }

    /// One turn of a worker, as at the desk.
    pub fn turn(&mut self, seat: u32, held: &mut Option<LongLease>, may_rest: bool) -> (Next, bool)
        requires orderly { IsOrderly (desk_in self.old) }
        requires seat { seat < seats_at (desk_in self.old) }
        requires held { HasLease IsFinished (desk_in self.old) seat held.old }
        ensures turn { IsTurn P.answer P.asked seat (desk_in self.old) (desk_in self.new) }
        ensures lease { HasLease IsLongLease (desk_in self.new) seat held.new }
    {
        self.desk.turn(seat, held, may_rest)
    }

    /// Whether each of several workers has a lease at its first seat.
    pub fn are_all_busy(&self) -> bool {
        self.desk.are_all_busy()
    }
}

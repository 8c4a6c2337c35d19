//! A lease that comes back.

ghost use Rattle.std.specs.Prelude.{◌≡◌, ◌++◌, IfOk, List, OnErr, OnOk, false, map};
ghost use Rattle.std.specs.Arc.{arc_value};
ghost use Rattle.std.specs.List.{AllByRecursion};
ghost use Rattle.asp_model.specs.Configuration as model;
ghost use Rattle.asp_model.specs.Configuration.{RequestShape, requests_of};
ghost use Rattle.asp_model.specs.History.{HistoryShape};
ghost use Rattle.asp_model.specs.Names.{Name};
ghost use Rattle.asp_model.specs.Shapes.{future_shape};
ghost use Rattle.law_journals.specs.Leases.{receptions_of};
ghost use Rattle.future_table.specs.Values.{values_of};
ghost use Rattle.def_journals.specs.Journals.{RunShape};
ghost use Rattle.step_reads.specs.Values.{AreClosedValues};
ghost use Rattle.code_table.specs.declared.code.Node.{Node as NodeShape};
ghost use Rattle.core_ranks.specs.Ranks.{rank_shape};
ghost use Rattle.law_core.specs.Ranked.{rank_awaiting as awaiting_rank, rank_of as rank_told};
ghost use Rattle.step_activity.specs.Actors.{IsClosedFor, Stands, code_of, log_in};
ghost use Rattle.step_activity.specs.Stances.{stance_shape};
ghost use Rattle.request_queue.specs.Requests.{request_shape};
ghost use Rattle.core_state.specs.Journal.{entries_in};
ghost use Rattle.core_state.specs.Returning.{
  IsReturning,
  IsRunCommitted,
  IsSomeLease,
  IsSomeReturning,
  rank_stance,
};
ghost use Rattle.core_state.specs.Cores.{IsCore};
ghost use Rattle.core_state.specs.Leases.{IsLease};

use crate::lease::Lease;
use crate::spending::left_with;
use crate::state::CoreState;
use asp_model::{Entry, FutureName};
use core_ranks::Rank;
use future_table::FutureTable;
use request_queue::Request;
use std::alloc::{AllocError, Global};
use step_activity::{Actor, Stance};

/// Who awaits a future without a value waits for it; round a cycle nothing comes.
fn rank_awaiting(
    alloc: Global,
    future: &FutureName,
    futures: &FutureTable,
) -> Result<Rank, AllocError>
    ensures rank { let told = awaiting_rank (values_of futures.now) (future_shape future.now) in
        IfOk result (λ r. rank_shape r ≡ told) }
{
    match futures.value(future) {
        Some(_) => Ok(Rank::Circles),
        None => Ok(Rank::Waits(future.copy(alloc)?)),
    }
}

/// The rank of an activity that stands so.
#[inline(always)]
pub fn rank_at(alloc: Global, stance: Stance, futures: &FutureTable) -> Result<Rank, AllocError>
    ensures rank { let told = rank_stance (values_of futures.now) (stance_shape stance.entry) in
        IfOk result (λ r. rank_shape r ≡ told) }
{
    match stance {
        Stance::Needs(_, _) => Ok(Rank::HasNeed),
        Stance::Contracts | Stance::Communicates => Ok(Rank::Goes),
        Stance::Awaits(future) => rank_awaiting(alloc, future, futures),
        Stance::Faulted(_) | Stance::Serving | Stance::Done => Ok(Rank::Rests),
    }
}

/// Where an activity stands, once it has settled.
pub fn rank_of(alloc: Global, actor: &Actor, futures: &FutureTable) -> Result<Rank, AllocError>
    requires closed { IsClosedFor actor.now }
    requires values { AreClosedValues (values_of futures.now) }
    ensures rank { (a : model.Activity) (rs : List RequestShape) (n : Name) →
        Stands actor.now a rs → let told = rank_told (values_of futures.now) rs n a in
        IfOk result (λ r. rank_shape r ≡ told) }
{
    rank_at(alloc, actor.stance(alloc, futures)?, futures)
}

/// All of these come, in order, to an activity that was out meanwhile.
pub fn receive_all(alloc: Global, actor: &mut Actor, came: Vec<Request>) -> Result<(), AllocError>
    requires code { let code = code_of actor.old in
        AllByRecursion (λ r. arc_value r.arguments.code ≡ code) came.items }
    ensures stands { (a : model.Activity) (rs : List RequestShape) → Stands actor.old a rs →
        OnOk result (Stands actor.new a (rs ++ map request_shape came.items)) }
    ensures code { code_of actor.new ≡ code_of actor.old }
    ensures log { let more = receptions_of (map request_shape came.items) in
        OnOk result (log_in actor.new ≡ log_in actor.old ++ more) }
{
    for request in came {
        actor.receive(alloc, request)?;
    }
    Ok(())
}

impl CoreState {
    /// Takes the activity out of a lease that comes back. It has received what came meanwhile, which
    /// its log notes before whatever it does next; it settled when it ran. There is room in the
    /// journal for what follows.
    pub fn take_back(&mut self, lease: Lease) -> Result<Box<Actor>, AllocError>
        requires lease { IsSomeLease self.old lease }
        ensures returning { (h : HistoryShape) (code : List NodeShape) (s : RunShape) →
            IsCore h code self.old s → (l : IsLease h code lease) →
            let back = IsReturning h code self.new s lease.number l.name lease.grant lease.taken in
            IfOk result (λ b. back b.value) }
        ensures fresh { OnOk result (lease.spent ≡ false) }
        ensures entries { entries_in self.new.journal ≡ entries_in self.old.journal }
    {
        if lease.spent {
            return Err(AllocError);
        }
        self.journal.reserve(self.seats.len() + 3)?;
        let mut actor = lease.actor;
        let came = self.seats.collect(lease.number);
        let here = actor.as_mut();
        receive_all(self.alloc, here, came)?;
        Ok(actor)
    }

    /// An activity comes in by its contractions alone, with its rank. What is left of its grant goes
    /// back.
    pub fn come_back(
        &mut self,
        number: u32,
        grant: u64,
        taken: u64,
        actor: Box<Actor>,
        rank: Rank,
    ) -> Result<(), AllocError>
        requires returning { IsSomeReturning self.old number grant taken actor.value }
        ensures committed { (h : HistoryShape) (code : List NodeShape) (s : RunShape) (n : Name) →
            (r : IsReturning h code self.old s number n grant taken actor.value) →
            let told = rank_told s.configuration.futures (requests_of s.configuration n) n r.end in
            rank_shape rank ≡ told →
            OnOk result (IsRunCommitted h code s number n grant taken r.end self.new) }
        ensures entries { OnErr result
            (entries_in self.new.journal ≡ entries_in self.old.journal) }
    {
        let _came = self.seats.put(number, actor);
        self.ranks.rank(number, rank)?;
        self.left = left_with(self.left, grant, taken);
        self.journal.note(Entry::Committed {
            number,
            reductions: taken,
        });
        Ok(())
    }
}

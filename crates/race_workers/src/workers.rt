//! The workers of a run, and their seats.

ghost use Rattle.std.specs.Prelude.{◌≡◌, ◌+◌, ◌*◌, ◌<◌, ◌≤◌, ◌++◌, ◌∷◌, [], All, IfOk, vec_capacity, vec_len, sum_by};
ghost use Rattle.crossbeam_utils.specs.Padded.{padded_value};
ghost use Rattle.asp_model.specs.History.{BeginsWith};
ghost use Rattle.asp_model.specs.declared.limits.TheConstants.{MOST_WORKERS};
ghost use Rattle.asp_core.specs.Chosen.{StaysChosen};
ghost use Rattle.asp_core.specs.Cores.{IsHome, IsKept, history_of};
ghost use Rattle.asp_core.specs.Plans.{StayByPlan};
ghost use Rattle.asp_core.specs.Stopping.{StaysStopped};
ghost use Rattle.turn_hub.specs.Seats.{seats_of};
ghost use Rattle.race_desks.specs.Desks.{core_at, history_at};
ghost use Rattle.race_workers.specs.Working.{AllReady, AreReady, HasRows, IsReady, opened_at};

use crate::seats::Seats;
use crate::work::work;
use asp_core::Core;
use crossbeam_utils::CachePadded;
use race_desks::{Gate, SharedDesk};
use std::alloc::{AllocError, Global};
use std::sync::Wait;
use std::thread;
use std::thread::Threads;
use turn_hub::{Hub, Seat};
use update_policy::UpdatePolicy;

// Seats of two workers lie apart in memory.
type PaddedSeats<P> = CachePadded<Seats<P>>;

/// Has so many workers race for the core, of which nobody is out, until each of them finds the
/// verdict or that memory ran out. The core comes back if it is not spent, with all that they
/// entered, and nobody is out then. What they leave is for the caller to finish.
pub fn race<R: Threads + Wait + Sync, P: UpdatePolicy + Send + Drop, G: Gate>(
    rt: &R,
    alloc: Global,
    core: Core<P>,
    workers: u32,
    gate: &G,
) -> Result<Core<P>, AllocError>
    requires workers { (0 < workers) × (workers ≤ MOST_WORKERS) }
    requires kept { IsKept core }
    requires home { IsHome core }
    ensures kept { IfOk result IsKept }
    ensures home { IfOk result IsHome }
    ensures begins { IfOk result (λ c. BeginsWith (history_of c) (history_of core)) }
    ensures by_plan { IfOk result (λ c. StayByPlan P.answer P.asked core.edges c.edges) }
    ensures chosen { IfOk result (λ c. StaysChosen core c) }
    ensures stopped { IfOk result (λ c. StaysStopped (history_of core) (history_of c)) }
{
    let desk = SharedDesk::new(alloc, core, workers * 2 + 1)?;
    let (hub, mut first) = Hub::new(alloc, desk, workers * 2 + 1)?;
    let mut seats = deal(alloc, &hub, &mut first, workers)?;
    let all = Vec::with_capacity(alloc, workers as usize * 2 + 1)?;
    work_all(rt, &hub, seats.as_mut_slice(), workers, gate);
    let all = together(&hub, seats, first, all);
    closed(hub, all)
}

// A seat of one part.
fn one_seat<P: UpdatePolicy + Drop>(
    hub: &Hub<SharedDesk<P>>,
    first: &mut Seat<SharedDesk<P>>,
) -> Seat<SharedDesk<P>>
    requires first { IsReady hub.now first.old.parts first.old }
    requires some { 1 < first.old.parts }
    ensures seat { IsReady hub.now 1 result }
    ensures first { IsReady hub.now first.new.parts first.new }
    ensures parts { first.new.parts + 1 ≡ first.old.parts }
{
    let Ok(seat) = hub.split(first) else {
        unreachable!()
    };
    seat
}

// The seats of one worker.
fn two_seats<P: UpdatePolicy + Drop>(
    hub: &Hub<SharedDesk<P>>,
    first: &mut Seat<SharedDesk<P>>,
) -> Seats<P>
    requires first { IsReady hub.now first.old.parts first.old }
    requires some { 2 < first.old.parts }
    ensures seats { AreReady hub.now result }
    ensures first { IsReady hub.now first.new.parts first.new }
    ensures parts { first.new.parts + 2 ≡ first.old.parts }
{
    let second = one_seat(hub, first);
    let one = one_seat(hub, first);
    Seats { first: one, second }
}

// The seats of each worker.
fn deal<P: UpdatePolicy + Drop>(
    alloc: Global,
    hub: &Hub<SharedDesk<P>>,
    first: &mut Seat<SharedDesk<P>>,
    workers: u32,
) -> Result<Vec<PaddedSeats<P>>, AllocError>
    requires workers { workers ≤ MOST_WORKERS }
    requires first { IsReady hub.now (workers * 2 + 1) first.old }
    ensures seats { IfOk result (λ seats. AllReady hub.now seats.items) }
    ensures count { IfOk result (λ seats. vec_len seats ≡ workers) }
    ensures first { IfOk result (λ _. IsReady hub.now 1 first.new) }
{
    let mut seats = Vec::new(alloc);
    for _worker in 0..workers {
        seats.push(CachePadded::new(two_seats(hub, first)))?;
    }
    Ok(seats)
}

// One worker at work.
fn work_padded<R: Wait, P: UpdatePolicy + Drop, G: Gate>(
    rt: &R,
    hub: &Hub<SharedDesk<P>>,
    seats: &mut PaddedSeats<P>,
    gate: &G,
)
    requires rows { HasRows hub.now }
    requires ready { AreReady hub.now (padded_value seats.old) }
    ensures ready { AreReady hub.now (padded_value seats.new) }
{
    work(rt, hub, &mut **seats, gate);
}

// All workers at work, each at its seats.
fn work_all<R: Threads + Wait + Sync, P: UpdatePolicy + Send + Drop, G: Gate>(
    rt: &R,
    hub: &Hub<SharedDesk<P>>,
    seats: &mut [PaddedSeats<P>],
    workers: u32,
    gate: &G,
)
    requires some { 0 < workers }
    requires rows { HasRows hub.now }
    requires ready { AllReady hub.now seats.old }
    ensures ready { AllReady hub.now seats.new }
{
    thread::for_each_mut(
        rt,
        seats,
        workers as usize,
        &|_, two: &mut PaddedSeats<P>|
            requires { HasRows hub.now × AreReady hub.now (padded_value two.now) }
            ensures { AreReady hub.entry.now (padded_value two.exit.now) }
        { work_padded(rt, hub, two, gate) },
    );
}

// Two seats more in a list, which has room for them.
fn put<P: UpdatePolicy + Drop>(all: &mut Vec<Seat<SharedDesk<P>>>, seats: Seats<P>)
    requires room { vec_len all.old + 1 < vec_capacity all.old }
    ensures items { all.new.items ≡ (all.old.items ++ seats.first ∷ []) ++ seats.second ∷ [] }
    ensures len { vec_len all.new ≡ vec_len all.old + 2 }
    ensures room { vec_capacity all.old ≤ vec_capacity all.new }
{
    let Seats { first, second } = seats;
    let Ok(()) = all.push(first) else {
        unreachable!()
    };
    let Ok(()) = all.push(second) else {
        unreachable!()
    };
}

// All seats in one list, which has room for them.
fn together<P: UpdatePolicy + Drop>(
    hub: &Hub<SharedDesk<P>>,
    seats: Vec<PaddedSeats<P>>,
    first: Seat<SharedDesk<P>>,
    room: Vec<Seat<SharedDesk<P>>>,
) -> Vec<Seat<SharedDesk<P>>>
    requires seats { AllReady hub.now seats.items }
    requires first { IsReady hub.now 1 first }
    requires room { (vec_len room ≡ 0) × (vec_len seats * 2 < vec_capacity room) }
    ensures ready { All (λ s. IsReady hub.now 1 s) result.items }
    ensures some { 0 < vec_len result }
    ensures parts { sum_by (λ s. s.parts) result.items ≡ vec_len seats * 2 + 1 }
{
    let _hub = hub;
    let mut rest = seats;
    let mut all = room;
    let Ok(()) = all.push(first) else {
        unreachable!()
    };
    while let Some(seats) = rest.pop() {
        put(&mut all, seats.into_inner());
    }
    all
}

// The hub's core, once all seats are back, where it is not spent.
fn closed<P: UpdatePolicy + Drop>(
    hub: Hub<SharedDesk<P>>,
    all: Vec<Seat<SharedDesk<P>>>,
) -> Result<Core<P>, AllocError>
    requires ready { All (λ s. IsReady hub 1 s) all.items }
    requires some { 0 < vec_len all }
    requires parts { sum_by (λ s. s.parts) all.items ≡ seats_of hub }
    requires rows { HasRows hub }
    ensures kept { IfOk result IsKept }
    ensures home { IfOk result IsHome }
    ensures begins { let first = history_at (opened_at hub) in
        IfOk result (λ c. BeginsWith (history_of c) first) }
    ensures by_plan { let first = core_at (opened_at hub) in
        IfOk result (λ c. StayByPlan P.answer P.asked first.edges c.edges) }
    ensures chosen { let first = core_at (opened_at hub) in
        IfOk result (λ c. StaysChosen first c) }
    ensures stopped { let first = history_at (opened_at hub) in
        IfOk result (λ c. StaysStopped first (history_of c)) }
{
    hub.close(all).into_core()
}

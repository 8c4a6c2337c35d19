//! A race from the hub's first seat to its last.

ghost use Rattle.std.specs.Prelude.{◌≡◌, ◌+◌, ◌<◌, ◌≤◌, All, IfOk, sum_by, vec_len};
ghost use Rattle.asp_model.specs.declared.limits.TheConstants.{MOST_SEATS};
ghost use Rattle.crossbeam_utils.specs.Padded.{padded_value};
ghost use Rattle.turn_hub.specs.Seats.{AllIn, seats_of};
ghost use Rattle.race_trials.specs.Ready.{AllReady, IsReady};

use crossbeam_utils::CachePadded;
use std::alloc::{AllocError, Global};
use std::sync::Wait;
use std::thread;
use std::thread::Threads;
use std::time::Clock;
use turn_hub::{Hub, Lends, Seat};

/// What each seat does in a race.
pub trait Work<H: Lends>: Sync {
    /// All turns of one seat, which has nothing out between them.
    fn turns<R: Wait + Clock>(&self, rt: &R, hub: &Hub<H>, seat: &mut Seat<H>)
        requires ready { IsReady hub.now 1 seat.old }
        ensures ready { IsReady hub.now 1 seat.new };
}

// Seats of two threads lie apart in memory.
type PaddedSeat<H> = CachePadded<Seat<H>>;

/// Makes a hub of the value, lets so many threads take their turns, each at its own seat, and
/// answers the value. The seats have the numbers from 1.
pub fn race<H: Lends + Send, W: Work<H>, R: Threads + Wait + Clock + Sync>(
    rt: &R,
    alloc: Global,
    value: H,
    workers: u32,
    work: &W,
) -> Result<H, AllocError>
    requires workers { (0 < workers) × (workers < MOST_SEATS) }
    requires all_in { AllIn H.out value (workers + 1) }
    requires kept { H.keeps value value }
    ensures all_in { IfOk result (λ h. AllIn H.out h (workers + 1)) }
    ensures kept { IfOk result (λ h. H.keeps value h) }
{
    let (hub, mut first) = Hub::new(alloc, value, workers + 1)?;
    let mut seats = deal(alloc, &hub, &mut first, workers)?;
    work_all(rt, &hub, seats.as_mut_slice(), workers, work);
    let all = together(alloc, &hub, seats, first)?;
    Ok(hub.close(all))
}

// A seat of one part for each worker.
fn deal<H: Lends>(
    alloc: Global,
    hub: &Hub<H>,
    first: &mut Seat<H>,
    workers: u32,
) -> Result<Vec<PaddedSeat<H>>, AllocError>
    requires first { IsReady hub.now (workers + 1) first.old }
    ensures seats { IfOk result (λ seats. AllReady hub.now seats.items) }
    ensures count { IfOk result (λ seats. vec_len seats ≡ workers) }
    ensures first { IfOk result (λ _. IsReady hub.now 1 first.new) }
{
    let mut seats = Vec::new(alloc);
    for _worker in 0..workers {
        let Ok(seat) = hub.split(first) else {
            unreachable!()
        };
        seats.push(CachePadded::new(seat))?;
    }
    Ok(seats)
}

// All turns of one worker.
fn work_padded<H: Lends, W: Work<H>, R: Wait + Clock>(
    rt: &R,
    hub: &Hub<H>,
    seat: &mut PaddedSeat<H>,
    work: &W,
)
    requires { IsReady hub.now 1 (padded_value seat.old) }
    ensures { IsReady hub.now 1 (padded_value seat.new) }
{
    work.turns(rt, hub, &mut **seat);
}

// All workers at work, each at its seat.
fn work_all<H: Lends + Send, W: Work<H>, R: Threads + Wait + Clock + Sync>(
    rt: &R,
    hub: &Hub<H>,
    seats: &mut [PaddedSeat<H>],
    workers: u32,
    work: &W,
)
    requires some { 0 < workers }
    requires ready { AllReady hub.now seats.old }
    ensures ready { AllReady hub.now seats.new }
{
    thread::for_each_mut(
        rt,
        seats,
        workers as usize,
        &|_, seat: &mut PaddedSeat<H>|
            requires { IsReady hub.now 1 (padded_value seat.now) }
            ensures { IsReady hub.entry.now 1 (padded_value seat.exit.now) }
        { work_padded(rt, hub, seat, work) },
    );
}

// All seats in one list.
fn together<H: Lends>(
    alloc: Global,
    hub: &Hub<H>,
    seats: Vec<PaddedSeat<H>>,
    first: Seat<H>,
) -> Result<Vec<Seat<H>>, AllocError>
    requires seats { AllReady hub.now seats.items }
    requires first { IsReady hub.now 1 first }
    ensures ready { IfOk result (λ all. All (λ s. IsReady hub.now 1 s) all.items) }
    ensures parts { IfOk result (λ all. sum_by (λ s. s.parts) all.items ≡ vec_len seats + 1) }
{
    let _hub = hub;
    let mut rest = seats;
    let mut all = Vec::new(alloc);
    all.push(first)?;
    while let Some(seat) = rest.pop() {
        all.push(seat.into_inner())?;
    }
    Ok(all)
}

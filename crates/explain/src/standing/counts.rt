//! How many activities stand how.

use asp_model::Status;
use run_waits::Explained;

/// How many activities wait, stopped at a fault and can go on, and how many requests are pending.
#[derive(Clone, Copy)]
pub struct Counts {
    pub waiting: u64,
    pub faulted: u64,
    pub running: u64,
    pub pending: u64,
}

/// One more, as far as numbers reach.
pub fn one_more(count: u64) -> u64 {
    count.saturating_add(1)
}

/// The counts of a run.
pub fn counts_of(run: &Explained) -> Counts {
    let mut counts = Counts {
        waiting: 0,
        faulted: 0,
        running: 0,
        pending: 0,
    };
    for activity in &run.end.outcome.activities {
        match &activity.status {
            Status::Awaits(_) => counts.waiting = one_more(counts.waiting),
            Status::Faulted(_) => counts.faulted = one_more(counts.faulted),
            Status::Running => counts.running = one_more(counts.running),
            Status::Done | Status::Serving => {}
        }
        if let Some(book) = run.books.book(&activity.name) {
            counts.pending = counts.pending.saturating_add(book.pending.len() as u64);
        }
    }
    counts
}

//! A gate that holds a worker until the others have hardly any budget left.

use std::sync::atomic::{AtomicBool, AtomicU64, Ordering};
use std::thread;
use worker_pool::Gate;

/// The first lease from here on is held.
const HELD_BURST: u64 = 100;

/// How long the others have for what is left.
const MORE_LOOKS: u64 = 100;

const MOST_LOOKS: u64 = 2_000_000;

/// Holds one worker until another one has come with a late lease, and counts the leases.
#[derive(Drop)]
pub struct HoldingGate {
    /// The first lease that is late.
    late_burst: u64,
    pub leases: AtomicU64,
    pub held: AtomicBool,
    late: AtomicBool,
    pub spent: AtomicBool,
}

impl HoldingGate {
    /// One that has held a worker holds no other.
    pub fn new(has_held: bool, late_burst: u64) -> HoldingGate {
        HoldingGate {
            late_burst,
            leases: AtomicU64::new(0),
            held: AtomicBool::new(has_held),
            late: AtomicBool::new(false),
            spent: AtomicBool::new(false),
        }
    }

    /// One that holds nobody.
    pub fn open() -> HoldingGate {
        HoldingGate::new(true, u64::MAX)
    }

    fn wait_for_a_late_one(&self) {
        for _look in 0..MOST_LOOKS {
            if self.late.load(Ordering::SeqCst) {
                return;
            }
            thread::yield_now();
        }
        self.spent.store(true, Ordering::SeqCst);
    }

    fn wait_for_the_end(&self) {
        self.wait_for_a_late_one();
        for _look in 0..MORE_LOOKS {
            thread::yield_now();
        }
    }
}

impl Gate for HoldingGate {
    fn hold(&self, _worker: u64, burst: u64) {
        self.leases.fetch_add(1, Ordering::SeqCst);
        if burst >= self.late_burst {
            self.late.store(true, Ordering::SeqCst);
        } else if burst >= HELD_BURST && !self.held.swap(true, Ordering::SeqCst) {
            self.wait_for_the_end();
        }
    }
}

//! How a seat that finds nothing to do rests, and is woken. No proof says anything of it: README.md
//! tells why no call is missed.

use std::sync::Wait;
use std::sync::atomic::AtomicU64;
use std::sync::atomic::Ordering::SeqCst;

/// The calls of those who gave the turn back and knew that others may find work.
#[derive(Drop)]
pub(crate) struct Calls {
    // How many calls there were. Seats that rest sleep on it.
    count: AtomicU64,
    // How many seats rest, or are about to, or were woken and have not gone on yet.
    resting: AtomicU64,
}

impl Calls {
    pub(crate) fn new() -> Calls {
        Calls {
            count: AtomicU64::new(0),
            resting: AtomicU64::new(0),
        }
    }

    /// How many calls there were.
    pub(crate) fn count(&self) -> u64 {
        self.count.load(SeqCst)
    }

    /// One call more. It answers how many there are then, and wakes nobody yet.
    pub(crate) fn call(&self) -> u64 {
        self.count.fetch_add(1, SeqCst).wrapping_add(1)
    }

    /// Wakes one who rests, if there is one.
    pub(crate) fn wake(&self) {
        if self.resting.load(SeqCst) > 0 {
            self.count.wake_one();
        }
    }

    /// Sleeps until somebody is woken, where there was no call since so many. It may also return
    /// for no reason.
    pub(crate) fn rest<R: Wait>(&self, rt: &R, heard: u64) {
        if self.count() == heard {
            self.resting.fetch_add(1, SeqCst);
            self.count.park(rt, low_half(heard));
            self.resting.fetch_sub(1, SeqCst);
        }
    }
}

// The bits that a sleep compares.
fn low_half(count: u64) -> u32 {
    (count % (1 << 32)) as u32
}

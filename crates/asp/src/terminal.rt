//! How far a search is, as a terminal shows it.

use end_search::Progress;
use std::cell::Cell;
use std::io::IsTerminal;
use std::time::Instant;

/// The seconds from one line to the next, at least.
const PAUSE: u64 = 1;

/// Writes on standard error how far a search is, at most one line a second, if that is a terminal.
#[derive(Drop)]
pub struct Terminal {
    rt: HostRuntime,
    last: Cell<Option<Instant>>,
}

impl Terminal {
    /// Nothing is written in the first second, and never if there is no terminal or no clock.
    pub fn new(rt: HostRuntime) -> Terminal {
        let last = if rt.stderr().is_terminal() {
            Instant::now(&rt).ok()
        } else {
            None
        };
        Terminal {
            rt,
            last: Cell::new(last),
        }
    }
}

impl Progress for Terminal {
    fn told(&self, ends: usize, done: usize) {
        let Some(last) = self.last.get() else {
            return;
        };
        let Ok(now) = Instant::now(&self.rt) else {
            return;
        };
        if now.duration_since(last).as_secs() < PAUSE {
            return;
        }
        self.last.set(Some(now));
        let _ = eprintln!(self.rt; "asp-outcomes: {ends} ends, {done} of them done");
    }
}

//! When a worker calls another one to work, and when it rests for others.

/// What a turn costs, in contractions.
const TURN: u64 = 24;

/// What it costs to call a worker that rests, in contractions.
const CALL: u64 = 128;

/// The most of a margin, at which it allows a call.
const MOST: u64 = 256;

/// The contractions that a worker took of late, less what its turns and calls cost. A worker whose
/// leases are shorter than its turns gains nothing from another one at work.
#[derive(Drop)]
pub struct Margin {
    contractions: u64,
}

impl Margin {
    /// A whole one.
    pub fn new() -> Margin {
        Margin { contractions: MOST }
    }

    /// A lease took so many contractions, and its turn comes.
    pub fn add(&mut self, taken: u64) {
        let earned = self.contractions.saturating_add(taken);
        self.contractions = earned.saturating_sub(TURN).min(MOST);
    }

    /// Whether nothing is left of it: the leases were shorter than the turns.
    pub fn is_gone(&self) -> bool {
        self.contractions == 0
    }

    // Whether it is whole: the leases were longer than the turns.
    fn is_whole(&self) -> bool {
        self.contractions >= MOST
    }

    /// After a rest it suffices for some short leases, and not for a call.
    pub fn rested(&mut self) {
        self.contractions = MOST - CALL;
    }

    /// Whether another worker is called, where others may find work or are to end: for work only
    /// if not all are busy and the margin is whole, and it pays for the call.
    pub fn calls(&mut self, more: bool, is_end: bool, all_busy: bool) -> bool {
        more && (is_end || !all_busy && self.pays())
    }

    /// Whether the worker gets a second lease, where others may find work: if all are busy, and the
    /// margin is whole.
    pub fn allows_second(&self, more: bool, all_busy: bool) -> bool {
        more && all_busy && self.is_whole()
    }

    // Pays for a call, where the margin is whole.
    fn pays(&mut self) -> bool {
        if !self.is_whole() {
            return false;
        }
        self.contractions = MOST - CALL;
        true
    }
}

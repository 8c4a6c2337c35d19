//! Futures and edges by the numbers of activities. Their hashes are fed pairs of numbers as one.

ghost use Rattle.std.specs.Prelude.{◌≡◌};
ghost use Rattle.future_update.specs.Hashed.{edge_fed, future_fed, pair_number, receipt_fed, same_edge_fed, same_future_fed, same_receipt_fed};

use std::hash::{Hash, Hasher};

/// The future of the request `index` that an activity sent.
#[derive(Clone, Copy, PartialEq, Eq, Drop)]
pub struct Future {
    pub by: u32,
    pub index: u32,
}

/// A future that one activity passed to another.
#[derive(Clone, Copy, PartialEq, Eq, Drop)]
pub struct Edge {
    pub future: Future,
    pub from: u32,
    pub to: u32,
}

/// An activity has received the value of a future.
#[derive(Clone, Copy, PartialEq, Eq, Drop)]
pub struct Receipt {
    pub future: Future,
    pub by: u32,
}

/// The place of an edge, by its future and its first activity.
#[derive(Clone, Copy, PartialEq, Eq, PartialOrd, Ord, Drop)]
pub struct Passing {
    pub by: u32,
    pub index: u32,
    pub from: u32,
    pub place: u32,
}

// Two numbers as one.
#[inline(always)]
fn pair_of(high: u32, low: u32) -> u64
    ensures number { result ≡ pair_number high low }
{
    high as u64 * 0x1_0000_0000 + low as u64
}

impl Hash for Future {
    ghost hash_input = { λ f. future_fed f.by f.index };

    ghost respects_eq = { λ f g e. same_future_fed f.by g.by f.index g.index e };

    fn hash<H: Hasher>(&self, state: &mut H) {
        state.write_u64(pair_of(self.by, self.index));
    }
}

impl Hash for Edge {
    ghost hash_input = { λ e. edge_fed e.future.by e.future.index e.from e.to };

    ghost respects_eq = { λ e f same. same_edge_fed e.future.by f.future.by e.future.index f.future.index e.from f.from e.to f.to same };

    fn hash<H: Hasher>(&self, state: &mut H) {
        state.write_u64(pair_of(self.future.by, self.future.index));
        state.write_u64(pair_of(self.from, self.to));
    }
}

impl Hash for Receipt {
    ghost hash_input = { λ r. receipt_fed r.future.by r.future.index r.by };

    ghost respects_eq = { λ r s same. same_receipt_fed r.future.by s.future.by r.future.index s.future.index r.by s.by same };

    fn hash<H: Hasher>(&self, state: &mut H) {
        state.write_u64(pair_of(self.future.by, self.future.index));
        state.write_u32(self.by);
    }
}

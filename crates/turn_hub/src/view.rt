//! What the seats of a hub know, for proofs alone: no value of a view is made.

use asp_model::History;
use std::collections::LinkedList;
use std::snapshot::Snapshot;

/// What one seat knows. A view that has no number is spent.
pub struct View<H> {
    /// Its own number, and then those that it can give to new seats.
    pub numbers: LinkedList<u32>,
    /// The history that it has seen.
    pub seen: History,
    /// What the seats that it took in have seen.
    pub told: LinkedList<History>,
    /// The number and the burst of the lease that it has out, and how many grants are kept for it.
    pub out: Option<(u32, u64, u32)>,
    /// The value as it was taken, while the seat has the turn.
    pub taken: Option<H>,
    /// The value that the hub was made with.
    pub opened: Option<H>,
}

/// What a hub was made with.
#[derive(Drop)]
pub struct Opening<H> {
    pub seats: u32,
    pub first: Snapshot<H>,
}

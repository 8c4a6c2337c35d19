//! What the workers share: the core beside one row for each seat.

use crate::rows::Row;
use asp_core::Core;

mod keeping;
mod settling;
mod shared;
mod turns;

/// The number and the burst of the lease that a seat has stand in the seat's row.
#[derive(Drop)]
pub struct Desk<P> {
    core: Core<P>,
    rows: Vec<Row>,
    // How many seats have a lease.
    leases: u32,
    // How many workers have a lease at their first seats, whose numbers are odd.
    busy: u32,
    // How many grants are kept for the leases in the rows, beyond their own.
    reserved: u64,
}

/// The desk in a box: a hub moves its value at each turn.
#[derive(Drop)]
pub struct SharedDesk<P> {
    desk: Box<Desk<P>>,
}

/// What a worker does behind its turn.
#[derive(Drop)]
pub enum Next {
    /// It runs the lease that it got.
    Run,
    /// It takes another turn: more is owed than one turn delivers.
    Again,
    /// It rests: what is left to do, others have.
    Rest,
    /// It ends: the verdict is there, or the core is spent.
    End,
}

impl Next {
    /// Whether the worker ends.
    pub fn is_end(&self) -> bool {
        matches!(self, Next::End)
    }

    /// Whether the worker rests.
    pub fn is_rest(&self) -> bool {
        matches!(self, Next::Rest)
    }
}

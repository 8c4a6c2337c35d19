//! The seats of one worker.

use race_desks::SharedDesk;
use turn_hub::Seat;

/// A worker has two leases while every other worker has one: so two turns in which it commits and
/// gets a lease follow each other, and the second finds near what the first one brought.
#[derive(Drop)]
pub(crate) struct Seats<P> {
    /// Its number is odd.
    pub(crate) first: Seat<SharedDesk<P>>,
    pub(crate) second: Seat<SharedDesk<P>>,
}

//! What a worker passes between its work and the turn in which it commits.

/// A worker calls it when it has run a lease, before it takes the turn to commit it.
pub trait Gate: Sync {
    /// By the number of the worker, and of the lease among all of the core.
    fn hold(&self, worker: u64, burst: u64);
}

/// It returns at once.
#[derive(Clone, Copy, Debug)]
pub struct OpenGate;

impl Gate for OpenGate {
    fn hold(&self, _worker: u64, _burst: u64) {}
}

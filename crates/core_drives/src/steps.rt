//! Steps of a core.

use asp_model::Delivery;

/// One step, by whoever works on a core.
#[derive(Drop)]
pub enum Step {
    /// The activity of a number is lent.
    Lend(u32),
    /// The lease that is out under a number runs.
    Local(u32),
    /// The lease that is out under a number comes back.
    Commit(u32),
    Deliver(Delivery),
}

//! Where one activity stands.

use asp_model::FutureName;

/// Where an activity stands that nobody works on.
#[derive(Debug, Drop)]
pub enum Rank {
    /// It can step.
    Goes,
    /// A value is owed to it, at a strict operand.
    HasNeed,
    /// It can go on when this future is filled, and not before.
    Waits(FutureName),
    /// It awaits a future that leads round a cycle: nothing comes.
    Circles,
    /// It is done, or faulted, or has nothing to serve.
    Rests,
}

//! Sources and sinks, by what they tell and by how often they failed. Each tells what was asked of it
//! or what it took, call by call. What a source has, or what came of the bytes, is told by some
//! alone. Each failure has its cause: the count of faults rose in that call.

ghost use Rattle.std.specs.Prelude.{◌≡◌, ℕ, List, [], ◌∷◌, ◌++◌, Option, Some, IfOk, IfErr, OnOk, OnErr, vec_len, ◌≤◌, ◌<◌};
ghost use Rattle.asp_edge.specs.Told.{SourceTells, SinkTells};
ghost use Rattle.asp_edge.specs.Causes.{Rose, IsContent, IsLonger, Took, TookFront, FailedOnly, answered};

use thiserror::Error;

/// Why there are no bytes.
#[derive(Clone, Copy, Debug, PartialEq, Eq, Error)]
pub enum ReadError {
    /// The outside failed, or has no such name.
    #[error("the source failed")]
    Failed,
    /// There are more bytes than were asked for.
    #[error("the content is too long")]
    TooLong {
        /// The number of bytes that were taken until this was known.
        taken: usize,
    },
    /// Want of memory.
    #[error("no memory")]
    Memory,
}

/// A source of named contents.
pub trait Source {
    /// What it tells: the bytes under each name, where it tells them; what was asked of it so far,
    /// with its answers; and how often it failed. That count stays at the last number of 64 bits.
    ghost told: { Self → SourceTells };

    /// All bytes under a name, if there are at most so many.
    fn read(&mut self, name: &str, most: usize) -> Result<Vec<u8>, ReadError>
        ensures same { (told self.new).content ≡ (told self.old).content }
        ensures bytes { IfOk result (λ v. IsContent ((told self.old).content name.now) v.items) }
        ensures short { IfOk result (λ v. vec_len v ≤ most) }
        ensures long { IfErr result (IsLonger ((told self.old).content name.now) most) }
        ensures asked { (told self.new).asked
            ≡ (told self.old).asked ++ (name.now, answered result) ∷ [] }
        ensures later { (told self.old).faults ≤ (told self.new).faults }
        ensures cause { IfErr result
            (FailedOnly (Rose (told self.old).faults (told self.new).faults)) };
}

/// The sink took a front part of a piece, and no more.
#[derive(Clone, Copy, Debug, PartialEq, Eq, Error)]
#[error("the sink failed")]
pub struct WriteFailed;

/// A sink of bytes.
pub trait Sink {
    /// What it tells: the bytes in it, where it tells them; those that it took so far; and how often
    /// it failed. That count stays at the last number of 64 bits.
    ghost told: { Self → SinkTells };

    /// Appends the whole piece, or fails after a front part of it.
    fn write(&mut self, piece: &[u8]) -> Result<(), WriteFailed>
        ensures all { OnOk result (Took (told self.old) (told self.new) piece.now) }
        ensures front { OnErr result (TookFront (told self.old) (told self.new) piece.now) }
        ensures later { (told self.old).faults ≤ (told self.new).faults }
        ensures cause { OnErr result (Rose (told self.old).faults (told self.new).faults) };
}

//! Why a text gives no entries.

ghost use Rattle.std.specs.Prelude.{◌≡◌};
ghost use Rattle.trace_text.specs.declared.error.TraceError.TheVariants.{Memory};

use std::alloc::AllocError;
use thiserror::Error;

/// Why a text gives no entries.
#[derive(Debug, Drop, Error)]
pub enum TraceError {
    /// The line with this number, from 1, is the first that cannot stand in its place.
    #[error("line {line} cannot stand there")]
    BadLine { line: u64 },
    /// There is no memory for what is read.
    #[error("no memory")]
    Memory,
}

impl From<AllocError> for TraceError {
    ghost from_gives = { λ _ e. e ≡ Memory };

    fn from(_error: AllocError) -> TraceError {
        TraceError::Memory
    }
}

//! Why no logs and counts are read.

ghost use Rattle.std.specs.Prelude.{◌≡◌};
ghost use Rattle.sender_log.specs.declared.error.LogError.TheVariants.{Memory};

use std::alloc::AllocError;
use thiserror::Error;

/// Why a text gives no logs and counts.
#[derive(Debug, Drop, Error)]
pub enum LogError {
    /// The line with this number, from 1, is the first that cannot stand in its place.
    #[error("line {line} cannot stand there")]
    BadLine { line: u64 },
    /// There is no memory for what is read.
    #[error("no memory")]
    Memory,
}

impl From<AllocError> for LogError {
    ghost from_gives = { λ _ e. e ≡ Memory };

    fn from(_error: AllocError) -> LogError {
        LogError::Memory
    }
}

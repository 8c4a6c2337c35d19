//! Why a trace gives no end of a run.

ghost use Rattle.std.specs.Prelude.{◌≡◌};
ghost use Rattle.trace_check.specs.declared.error.TraceStop.TheVariants.{Memory};

use std::alloc::AllocError;
use thiserror::Error;

/// Why a trace gives no end of a run.
#[derive(Debug, Drop, Error)]
pub enum TraceStop {
    /// The entry with this number, from 1, is the first that no lawful journal has there.
    #[error("entry {entry} is not lawful")]
    Unlawful { entry: u64 },
    /// All entries are lawful, and the run has not ended.
    #[error("the run has not ended")]
    Unfinished,
    /// There is no memory for the run.
    #[error("no memory")]
    Memory,
}

impl From<AllocError> for TraceStop {
    ghost from_gives = { λ _ e. e ≡ Memory };

    fn from(_error: AllocError) -> TraceStop {
        TraceStop::Memory
    }
}

//! Why a text is not read.

ghost use Rattle.std.specs.Prelude.{◌≡◌};
ghost use Rattle.checkpoint_items.specs.declared.error.ReadError.TheVariants.{Memory};

use std::alloc::{AllocError, AllocFailed};

/// Why a text gives no checkpoint.
#[derive(Debug, Drop)]
pub enum ReadError {
    /// The text is a checkpoint of another program, as far as its second line says.
    OtherProgram,
    /// The text is no checkpoint.
    Malformed,
    /// A word or a label is not UTF-8. No checkpoint of a run has such a one.
    NotText,
    /// There is no memory for what is read, or it is beyond a limit that no run reaches: a term of
    /// more than `MOST_READ_NESTED` levels, a list of more than `MOST_PROGRAM_BYTES` terms, or an
    /// activity that has printed more lines than it has counted reductions.
    Memory,
}

impl From<AllocError> for ReadError {
    ghost from_gives = { λ _ e. e ≡ Memory };

    fn from(_error: AllocError) -> ReadError {
        ReadError::Memory
    }
}

impl<T: Drop> From<AllocFailed<T>> for ReadError {
    ghost from_gives = { λ _ e. e ≡ Memory };

    fn from(_error: AllocFailed<T>) -> ReadError {
        ReadError::Memory
    }
}

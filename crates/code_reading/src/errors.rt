//! Why a term is not decoded.

ghost use Rattle.std.specs.Prelude.{◌≡◌};
ghost use Rattle.code_reading.specs.declared.errors.DecodeError.TheVariants.{Memory};

use std::alloc::{AllocError, AllocFailed};

/// Why a term is not decoded.
#[derive(Debug, Drop)]
pub enum DecodeError {
    /// Code, frames and services do not fit together: a node is over other than as many terms as it asks
    /// for, a call has no receiver, or a frame stands for no term.
    Unfit,
    Memory,
}

impl From<AllocError> for DecodeError {
    ghost from_gives = { λ _ s. s ≡ Memory };

    fn from(_error: AllocError) -> DecodeError {
        DecodeError::Memory
    }
}

impl<T: Drop> From<AllocFailed<T>> for DecodeError {
    ghost from_gives = { λ _ s. s ≡ Memory };

    fn from(_error: AllocFailed<T>) -> DecodeError {
        DecodeError::Memory
    }
}

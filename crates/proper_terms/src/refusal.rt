//! Why a check does not pass.

ghost use Rattle.std.specs.Prelude.{◌≡◌};
ghost use Rattle.proper_terms.specs.Tests.{IsMemory};
ghost use Rattle.proper_terms.specs.declared.refusal.Refusal.TheVariants.{Memory};

use std::alloc::{AllocError, AllocFailed};

/// Why a check does not pass.
#[derive(Debug, Drop)]
pub enum Refusal {
    /// What is checked does not hold.
    Unsound,
    /// There is no memory for the check.
    Memory(AllocError),
}

impl From<AllocError> for Refusal {
    ghost from_gives = { λ e r. r ≡ Memory e };

    fn from(error: AllocError) -> Refusal {
        Refusal::Memory(error)
    }
}

impl<T: Drop> From<AllocFailed<T>> for Refusal {
    ghost from_gives = { λ _ r. IsMemory r };

    fn from(error: AllocFailed<T>) -> Refusal {
        Refusal::Memory(AllocError::from(error))
    }
}

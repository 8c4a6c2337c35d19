//! Why words are refused.

ghost use Rattle.std.specs.Prelude.{◌≡◌};
ghost use Rattle.command_line.specs.declared.error.WordsError.TheVariants.{Memory};

use std::alloc::AllocError;
use thiserror::Error;

/// Why the words give no task.
#[derive(Debug, Drop, Error)]
pub enum WordsError {
    /// The words are no command line that is accepted.
    #[error("the words are no command line")]
    Usage,
    /// There is no memory to read them.
    #[error("no memory")]
    Memory,
}

impl From<AllocError> for WordsError {
    ghost from_gives = { λ _ e. e ≡ Memory };

    fn from(_error: AllocError) -> WordsError {
        WordsError::Memory
    }
}

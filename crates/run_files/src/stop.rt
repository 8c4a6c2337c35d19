//! Why a run does not go on from a file.

ghost use Rattle.std.specs.Prelude.{◌≡◌};
ghost use Rattle.run_files.specs.declared.stop.FileStop.TheVariants.{Memory};
ghost use Rattle.run_files.specs.Stops.{stop_of};

use checkpoint_items::ReadError;
use code_reading::DecodeError;
use std::alloc::AllocError;
use thiserror::Error;

/// Why no run of a program goes on from a file.
#[derive(Debug, Drop, Error)]
pub enum FileStop {
    /// It is a checkpoint of another program, as far as its second line says.
    #[error("another program")]
    OtherProgram,
    /// It is no checkpoint, or no run can go on from it: it is not sound, or not within the limits.
    #[error("malformed")]
    Malformed,
    /// What it counted and the budget come to more than `MOST_REDUCTIONS`.
    #[error("too many reductions")]
    TooMany,
    /// There is no memory for the run, or for what is read. So it is too where the file weighs more
    /// than `MOST_READ_WEIGHT`, where a term is nested beyond the levels that are read, and where a
    /// word or a label is not UTF-8 or begins with a digit, which none of a run does.
    #[error("no memory")]
    Memory,
}

impl From<AllocError> for FileStop {
    ghost from_gives = { λ _ s. s ≡ Memory };

    fn from(_error: AllocError) -> FileStop {
        FileStop::Memory
    }
}

// What was taken apart has settled and runs its own code, so this is for want of memory.
impl From<DecodeError> for FileStop {
    ghost from_gives = { λ _ s. s ≡ Memory };

    fn from(_error: DecodeError) -> FileStop {
        FileStop::Memory
    }
}

impl From<ReadError> for FileStop {
    ghost from_gives = { λ e s. s ≡ stop_of e };

    fn from(error: ReadError) -> FileStop {
        match error {
            ReadError::OtherProgram => FileStop::OtherProgram,
            ReadError::Malformed => FileStop::Malformed,
            ReadError::NotText => FileStop::Memory,
            ReadError::Memory => FileStop::Memory,
        }
    }
}

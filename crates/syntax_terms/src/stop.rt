//! Why a token leaves no state.

ghost use Rattle.std.specs.Prelude.{◌≡◌, Err};
ghost use Rattle.syntax_terms.specs.declared.stop.Stop.TheVariants.{Memory, Unexpected};

use std::alloc::AllocError;

/// Why a token leaves no state.
#[derive(Clone, Copy)]
pub enum Stop {
    Unexpected,
    NotAField,
    Memory,
}

impl From<AllocError> for Stop {
    ghost from_gives = { λ _ e. e ≡ Memory };

    fn from(_e: AllocError) -> Stop {
        Stop::Memory
    }
}

/// Gives up what was read. Here a drop is a call, which is far less to prove than one where a scope ends.
pub fn stopped<T: Drop, R, E>(read: T, error: E) -> Result<R, E>
    ensures stopped { result ≡ Err error }
{
    drop(read);
    Err(error)
}

/// No token of this kind may stand here, and what was read is given up.
pub fn refused<T: Drop, R>(read: T) -> Result<R, Stop>
    ensures refused { result ≡ Err Unexpected }
{
    stopped(read, Stop::Unexpected)
}

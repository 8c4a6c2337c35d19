//! Why a text is no program.

ghost use Rattle.std.specs.Prelude.{◌≡◌};
ghost use Rattle.asp_syntax.specs.declared.error.SyntaxError.TheVariants.{Memory};

use std::alloc::AllocError;

/// What is wrong at a place. Of two faults at one place the one that stands first here is answered.
#[derive(Clone, Copy, Debug, PartialEq, Eq)]
pub enum SyntaxKind {
    /// A byte that begins or continues no token, or the end of the source inside a text.
    BadByte,
    /// A number above 9223372036854775807 begins here.
    BadNumber,
    /// The tokens before begin some program, and with this token, or the end, they do not.
    Unexpected,
    /// The token raises the level above 200.
    TooDeep,
    /// A `:=` stands here, and what stands on its left is no field access.
    NotAField,
}

/// A fault, and its place in the text.
#[derive(Clone, Copy, Debug, PartialEq, Eq)]
pub struct SyntaxFault {
    pub at: usize,
    pub kind: SyntaxKind,
}

/// Why no program was read.
#[derive(Debug, Drop)]
pub enum SyntaxError {
    /// The text is no program, and this is its first fault.
    Fault(SyntaxFault),
    /// There was no memory for the program.
    Memory,
}

impl From<AllocError> for SyntaxError {
    ghost from_gives = { λ _ e. e ≡ Memory };

    fn from(_e: AllocError) -> SyntaxError {
        SyntaxError::Memory
    }
}

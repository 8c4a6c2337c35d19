//! Histories that only proofs read. They take no memory, and their functions do nothing when a
//! program runs.

ghost use Rattle.std.specs.Prelude.{◌≡◌, ℕ, List, [], ◌∷◌, ◌++◌};
ghost use Rattle.std.specs.Borrow.{ftrue};
ghost use Rattle.asp_edge.specs.Told.{Asks};

use crate::ReadError;
use std::marker::Model;

/// What was asked of a source so far.
#[derive(Drop)]
pub struct Asked {
    pub ghost asks: { Asks },
}

impl Model for Asked {
    ghost also_owns = { λ _. ftrue };
}

/// A read: the name, and what it answers.
#[derive(Clone, Copy, Drop)]
pub struct Ask<'a> {
    pub name: &'a str,
    pub answer: &'a Result<Vec<u8>, ReadError>,
}

impl Asked {
    ghost use Rattle.std.specs.Prelude.{◌≡◌, [], ◌∷◌, ◌++◌};
    ghost use Rattle.asp_edge.specs.History.{ask_of};

    /// Nothing was asked.
    pub fn new() -> Asked
        ensures { result.asks ≡ [] }
    {
        Asked {}
    }

    /// One read more.
    pub fn with(&self, _ask: &Ask<'_>) -> Asked
        ensures { result.asks ≡ self.now.asks ++ ask_of _ask.now ∷ [] }
    {
        Asked {}
    }
}

/// The bytes that a sink took so far.
#[derive(Drop)]
pub struct Taken {
    pub ghost bytes: { List ℕ },
}

impl Model for Taken {
    ghost also_owns = { λ _. ftrue };
}

/// What a write took.
#[derive(Clone, Copy, Drop)]
pub struct Piece<'a> {
    pub bytes: &'a [u8],
}

impl Taken {
    ghost use Rattle.std.specs.Prelude.{◌≡◌, [], ◌++◌};

    /// Nothing was taken.
    pub fn new() -> Taken
        ensures { result.bytes ≡ [] }
    {
        Taken {}
    }

    /// One piece more.
    pub fn with(&self, _piece: &Piece<'_>) -> Taken
        ensures { result.bytes ≡ self.now.bytes ++ _piece.now.bytes.now }
    {
        Taken {}
    }
}

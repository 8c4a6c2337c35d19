//! What is noted of a run, and who listens.

ghost use Rattle.std.specs.Prelude.{◌≡◌, ◌∷◌, ◌++◌, [], List, OnOk, false};
ghost use Rattle.replay_parts.specs.Listening.{IsDeaf, IsDeafToLines, IsNote};
ghost use Rattle.replay_parts.specs.Notes.{NoteShape};

use asp_model::{ActivityName, Fault, FutureName, Label, Line};
use serve_rules::Wanted;
use std::alloc::AllocError;

/// What an activity does that others see.
#[derive(Clone, Copy)]
pub enum Event<'a> {
    /// It serves a request that has one of these labels.
    Served(Wanted<'a>),
    Made(&'a ActivityName),
    /// A request with this label and this future comes to the activity of this name.
    Sent(&'a ActivityName, &'a Label, &'a FutureName),
    /// It answers.
    Answered(&'a FutureName),
    /// It asks what is pending.
    Polled,
    Printed(&'a Line),
    /// It stands at a `serve` with these labels when the run is over.
    Standing(Wanted<'a>),
    /// It stands at this fault when the run is over.
    Faulted(Fault),
}

/// Who does what, after how many of its reductions.
#[derive(Clone, Copy)]
pub struct Note<'a> {
    pub by: &'a ActivityName,
    pub count: u64,
    /// The byte of the text at which it stands before its step, or at the end; none where its term
    /// is done, or is the call that a service begins with, or where the listener does not hear of
    /// places. It is no part of what is told in the sense of the definition: what it is the clause
    /// `place` of `Population::mark` says.
    pub at: Option<usize>,
    pub event: Event<'a>,
}

/// Listens to a run. It is told of each step that others see, in the order of the steps.
pub trait Notes {
    /// What it keeps tells of these notes, which it was told in this order.
    ghost tells: { Self → List NoteShape → Type 0 };

    /// Whether it wants to be told. Who does not is told nothing.
    fn listens(&self) -> bool
        ensures deaf { result ≡ false → IsDeaf (tells self.now) };

    /// Whether it wants to be told of lines too. While it does, an activity takes one reduction in
    /// a round.
    fn hears_lines(&self) -> bool
        ensures deaf { result ≡ false → IsDeafToLines (tells self.now) };

    /// Whether it wants to know where in the text an activity stands. Who does not is told of no
    /// place.
    fn hears_places(&self) -> bool;

    /// It is told one note more.
    fn note(&mut self, note: Note) -> Result<(), AllocError>
        ensures told { (xs : List NoteShape) (x : NoteShape) → tells self.old xs →
            IsNote note.entry x → OnOk result (tells self.new (xs ++ x ∷ [])) };
}

/// Nobody listens.
#[derive(Clone, Copy, Debug, Drop)]
pub struct NoNotes;

impl Notes for NoNotes {
    ghost use Rattle.std.specs.Prelude.{⊤};

    ghost tells = { λ _ _. ⊤ };

    #[inline]
    fn listens(&self) -> bool {
        false
    }

    #[inline]
    fn hears_lines(&self) -> bool {
        false
    }

    #[inline]
    fn hears_places(&self) -> bool {
        false
    }

    #[inline]
    fn note(&mut self, _note: Note) -> Result<(), AllocError> {
        Ok(())
    }
}

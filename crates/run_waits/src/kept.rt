//! What is kept of a replay, by one listener.

ghost use Rattle.std.specs.Prelude.{[]};
ghost use Rattle.run_waits.specs.Kept.{KeepsAll};

use crate::books::Books;
use crate::receipts::Receipts;
use replay_one::{Note, Notes};
use std::alloc::{AllocError, Global};

/// Where each request went, and what each activity has of those that came to it.
#[derive(Drop)]
pub struct Kept {
    pub receipts: Receipts,
    pub books: Books,
}

impl Kept {
    /// No request was sent.
    pub fn new(alloc: Global) -> Kept
        ensures none { KeepsAll result [] }
    {
        Kept {
            receipts: Receipts::new(alloc),
            books: Books::new(alloc),
        }
    }
}

impl Notes for Kept {
    ghost use Rattle.run_waits.specs.Kept.{KeepsAll};

    ghost tells = { KeepsAll };

    fn listens(&self) -> bool {
        true
    }

    fn hears_lines(&self) -> bool {
        false
    }

    fn hears_places(&self) -> bool {
        true
    }

    fn note(&mut self, note: Note) -> Result<(), AllocError> {
        self.receipts.note(note)?;
        self.books.tell(note)
    }
}

//! A listener that keeps the events that are asked for.

ghost use Rattle.std.specs.Prelude.{◌∷◌, []};
ghost use Rattle.explain.specs.EventsHeard.{Tells, wish_note};

use crate::events::event::{RunEvent, what_of};
use crate::events::page::{Page, Wish};
use replay_one::{Note, Notes};
use run_waits::Books;
use std::alloc::{AllocError, Global};

/// The events that are asked for, and the requests that are not answered.
#[derive(Drop)]
pub struct Listener {
    alloc: Global,
    pub page: Page,
    books: Books,
}

impl Listener {
    /// Nothing was told.
    pub fn new(alloc: Global, wish: Wish) -> Listener
        ensures none { Tells result (wish_note wish ∷ []) }
    {
        Listener {
            alloc,
            page: Page::new(alloc, wish),
            books: Books::new(alloc),
        }
    }
}

impl Notes for Listener {
    ghost use Rattle.explain.specs.EventsHeard.{Tells};

    ghost tells = { Tells };

    fn listens(&self) -> bool {
        true
    }

    fn hears_lines(&self) -> bool {
        true
    }

    fn hears_places(&self) -> bool {
        true
    }

    fn note(&mut self, note: Note) -> Result<(), AllocError> {
        self.books.tell(note)?;
        match what_of(self.alloc, note.event, self.books.book(note.by))? {
            Some(what) => {
                let by = note.by.copy(self.alloc)?;
                self.page.add(RunEvent {
                    by,
                    count: note.count,
                    at: note.at,
                    what,
                })
            }
            None => Ok(()),
        }
    }
}

//! What each activity has of the requests that came to it, kept by a listener.

ghost use Rattle.std.specs.Prelude.{◌≡◌, IsFalse, None, OnOk};
ghost use Rattle.std.specs.BTreeMap.{get};
ghost use Rattle.std.specs.Option.{option_copied};
ghost use Rattle.asp_model.specs.Names.{Name, name_cmp};
ghost use Rattle.replay_parts.specs.Listening.{IsEvent, IsNote};
ghost use Rattle.replay_parts.specs.Notes.{EventShape, NoteShape};
ghost use Rattle.run_waits.specs.Books.{BookShape, IsNoted, blank, book_at, book_by, or_blank, owner};

use crate::book::Book;
use asp_model::ActivityName;
use replay_one::{Event, Note};
use std::alloc::{AllocError, Global};
use std::collections::BTreeMap;

/// A book for each activity of which something was told.
#[derive(Drop)]
pub struct Books {
    alloc: Global,
    books: BTreeMap<ActivityName, Book>,
}

// It tells of a request. No other event changes a book.
fn is_entered(event: Event) -> bool
    ensures { IsFalse result → (x : EventShape) (b : BookShape) →
        IsEvent event.entry x → book_by x b ≡ b }
{
    match event {
        Event::Sent(_, _, _) => true,
        Event::Served(_) => true,
        Event::Answered(_) => true,
        Event::Made(_) => false,
        Event::Polled => false,
        Event::Printed(_) => false,
        Event::Standing(_) => false,
        Event::Faulted(_) => false,
    }
}

// Whose book tells of an event.
fn owner_of<'a>(note: Note<'a>) -> &'a ActivityName
    ensures { (x : NoteShape) → IsNote note.entry x → result.now ≡ owner x.by x.event }
{
    match note.event {
        Event::Sent(to, _, _) => to,
        _ => note.by,
    }
}

impl Books {
    /// No request was sent.
    pub fn new(alloc: Global) -> Books
        ensures none { (n : Name) → book_at result n ≡ blank }
    {
        Books {
            alloc,
            books: BTreeMap::new(alloc),
        }
    }

    /// What an activity has of its requests, if anything was told of it.
    pub fn book(&self, name: &ActivityName) -> Option<&Book>
        ensures book { or_blank (option_copied result) ≡ book_at self.now name.now }
    {
        self.books.get(name)
    }

    // An event is told in the book of an activity.
    fn enter(&mut self, name: &ActivityName, event: Event) -> Result<(), AllocError>
        ensures { (x : EventShape) → IsEvent event.entry x →
            OnOk result (IsNoted name.now x self.old self.new) }
    {
        match self.books.get_mut(name) {
            Some(book) => book.tell(self.alloc, event),
            None => self.begin(name, event),
        }
    }

    // A first event is told of an activity.
    fn begin(&mut self, name: &ActivityName, event: Event) -> Result<(), AllocError>
        requires unknown { get name_cmp self.old.books name.now ≡ None }
        ensures { (x : EventShape) → IsEvent event.entry x →
            OnOk result (IsNoted name.now x self.old self.new) }
    {
        let name = name.copy(self.alloc)?;
        let mut book = Book::new(self.alloc);
        book.tell(self.alloc, event)?;
        self.books.insert(name, book)?;
        Ok(())
    }

    /// It is told one note more.
    pub fn tell(&mut self, note: Note) -> Result<(), AllocError>
        ensures { (x : NoteShape) → IsNote note.entry x →
            OnOk result (IsNoted (owner x.by x.event) x.event self.old self.new) }
    {
        if is_entered(note.event) {
            self.enter(owner_of(note), note.event)
        } else {
            Ok(())
        }
    }
}

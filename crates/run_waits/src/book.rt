//! What an activity has of the requests that came to it.

ghost use Rattle.std.specs.Prelude.{◌≡◌, ◌<◌, IfNone, IfSome, OnOk, map};
ghost use Rattle.std.specs.VecDeque.{deque_len};
ghost use Rattle.asp_model.specs.Shapes.{future_shape};
ghost use Rattle.replay_parts.specs.Listening.{IsEvent};
ghost use Rattle.replay_parts.specs.Notes.{EventShape};
ghost use Rattle.serve_rules.specs.Wanted.{wanted_labels};
ghost use Rattle.run_waits.specs.Books.{HasNone, IsOldestAt, blank, book_answered, book_by, book_of, book_received, book_served, book_taken, request_of};

use asp_model::{FutureName, Label};
use replay_one::Event;
use serve_rules::Wanted;
use std::alloc::{AllocError, Global};
use std::collections::VecDeque;

/// A request: who asks is who began its future.
#[derive(Drop)]
pub struct Asked {
    pub label: Label,
    pub future: FutureName,
}

/// The requests of one activity that are not answered, and the one that it answered last.
#[derive(Drop)]
pub struct Book {
    /// Those that it did not serve, oldest first.
    pub pending: VecDeque<Asked>,
    /// Those that it serves, the newest last.
    pub serving: Vec<Asked>,
    pub answered: Option<Asked>,
}

impl Book {
    /// Nothing came.
    pub fn new(alloc: Global) -> Book
        ensures blank { book_of result ≡ blank }
    {
        Book {
            pending: VecDeque::new(alloc),
            serving: Vec::new(alloc),
            answered: None,
        }
    }

    // A request came.
    fn receive(
        &mut self,
        alloc: Global,
        label: &Label,
        future: &FutureName,
    ) -> Result<(), AllocError>
        ensures { OnOk result (book_of self.new
            ≡ book_received label.now.text (future_shape future.now) (book_of self.old)) }
    {
        let asked = Asked {
            label: label.copy(alloc)?,
            future: future.copy(alloc)?,
        };
        self.pending.push_back(asked)?;
        Ok(())
    }

    // The place of the oldest request with one of these labels.
    fn oldest(&self, wanted: Wanted) -> Option<usize>
        ensures within { IfSome result (λ k. k < deque_len self.now.pending) }
        ensures found { let pending = map request_of self.now.pending.items in
            IfSome result (IsOldestAt (wanted_labels wanted.entry) pending) }
        ensures none { let pending = map request_of self.now.pending.items in
            IfNone result (HasNone (wanted_labels wanted.entry) pending) }
    {
        let mut at = 0;
        while at < self.pending.len() {
            if wanted.has(&self.pending[at].label) {
                return Some(at);
            }
            at += 1;
        }
        None
    }

    // The oldest request with one of these labels is served.
    fn serve(&mut self, wanted: Wanted) -> Result<(), AllocError>
        ensures { OnOk result (book_of self.new
            ≡ book_served (wanted_labels wanted.entry) (book_of self.old)) }
    {
        match self.oldest(wanted) {
            Some(at) => self.take(at),
            None => Ok(()),
        }
    }

    // The request at a place is served.
    fn take(&mut self, at: usize) -> Result<(), AllocError>
        requires within { at < deque_len self.old.pending }
        ensures { OnOk result (book_of self.new ≡ book_taken at (book_of self.old)) }
    {
        match self.pending.remove(at) {
            Some(asked) => {
                self.serving.push(asked)?;
                Ok(())
            }
            None => Ok(()),
        }
    }

    // The newest service has ended.
    fn answer(&mut self)
        ensures { book_of self.new ≡ book_answered (book_of self.old) }
    {
        self.answered = self.serving.pop();
    }

    /// What it tells by one event more.
    pub fn tell(&mut self, alloc: Global, event: Event) -> Result<(), AllocError>
        ensures { (x : EventShape) → IsEvent event.entry x →
            OnOk result (book_of self.new ≡ book_by x (book_of self.old)) }
    {
        match event {
            Event::Sent(_, label, future) => self.receive(alloc, label, future),
            Event::Served(wanted) => self.serve(wanted),
            Event::Answered(_) => {
                self.answer();
                Ok(())
            }
            Event::Made(_) => Ok(()),
            Event::Polled => Ok(()),
            Event::Printed(_) => Ok(()),
            Event::Standing(_) => Ok(()),
            Event::Faulted(_) => Ok(()),
        }
    }
}

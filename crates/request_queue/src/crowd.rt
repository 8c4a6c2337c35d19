//! Pending requests, in places by their numbers and noted under their labels. A served request
//! leaves, and the others keep their order and their numbers.

ghost use Rattle.std.specs.Prelude.{
  ◌≡◌,
  ◌<◌,
  ◌+◌,
  ◌++◌,
  ◌^◌,
  ◌∷◌,
  [],
  IfOk,
  IsSome,
  OnErr,
  OnOk,
  Some,
  length,
};
ghost use Rattle.std.specs.Option.{option_map};
ghost use Rattle.serve_rules.specs.Wanted.{wanted_labels};
ghost use Rattle.request_queue.specs.Pending.{but, oldest, request_at, waiting};
ghost use Rattle.request_queue.specs.Requests.{lent_shapes, shapes_of};

use crate::arrivals::Arrivals;
use crate::notes::Notes;
use crate::request::Request;
use serve_rules::Wanted;
use std::alloc::{AllocError, Global};
use std::marker::Model;

/// Requests have numbers of 64 bits. No more are taken once this many have arrived.
pub const MOST_ARRIVALS: u64 = u64::MAX;

/// Pending requests with their numbers in order of arrival, oldest first, and how many requests
/// have arrived, here or before.
#[derive(Drop)]
pub struct Crowd {
    requests: Arrivals,
    notes: Notes,
}

impl Model for Crowd {
    ghost use Rattle.request_queue.specs.Pending.{QueueView};

    ghost Value = { QueueView };

    ghost use Rattle.request_queue.specs.Kept.{IsKept, view_of};

    ghost view = { view_of };

    ghost invariant = { IsKept };
}

impl Crowd {
    /// No request, where so many have arrived.
    pub fn new(alloc: Global, arrived: u64) -> Crowd
        ensures pending { result.pending ≡ [] }
        ensures arrived { result.arrived ≡ arrived }
    {
        Crowd {
            requests: Arrivals::new(alloc, arrived),
            notes: Notes::new(alloc),
        }
    }

    /// How many requests are pending.
    pub fn len(&self) -> usize
        ensures len { result ≡ length self.now.pending }
        ensures small { result < 2 ^ 63 }
    {
        self.requests.len()
    }

    /// How many requests have arrived.
    pub fn arrived(&self) -> u64
        ensures arrived { result ≡ self.now.arrived }
    {
        self.requests.arrived()
    }

    /// Puts the requests behind others, oldest first.
    pub fn behind<'a>(&'a self, first: Vec<&'a Request>) -> Result<Vec<&'a Request>, AllocError>
        ensures pending { IfOk result (λ v. lent_shapes v.items
            ≡ lent_shapes first.entry.items ++ shapes_of self.now.pending) }
    {
        self.requests.behind(first)
    }

    /// Appends a request under the next number. It fails when as many have arrived as can be numbered,
    /// or without memory.
    #[inline(never)]
    pub fn push(&mut self, request: Box<Request>) -> Result<(), AllocError>
        ensures pending { let old = self.old in OnOk result
            (self.new.pending ≡ old.pending ++ (old.arrived, request.value) ∷ []) }
        ensures arrived { OnOk result (self.new.arrived ≡ self.old.arrived + 1) }
        ensures err { OnErr result (self.new ≡ self.old) }
    {
        let number = self.requests.arrived();
        if number == MOST_ARRIVALS {
            return Err(AllocError);
        }
        self.notes.note(request.label.as_label(), number)?;
        match self.requests.push(request) {
            Ok(()) => Ok(()),
            Err(back) => {
                self.notes.forget(back.label.as_label(), number);
                Err(AllocError)
            }
        }
    }

    /// The number of the oldest request with one of the labels.
    #[inline(never)]
    pub fn first_of(&self, wanted: Wanted) -> Option<u64>
        ensures oldest { let found = oldest (wanted_labels wanted.entry) (waiting self.now) in
            result ≡ option_map (λ x. x.0) found }
    {
        self.notes.oldest(wanted)
    }

    /// Removes the request of a number, and returns it.
    #[inline(never)]
    pub fn take(&mut self, number: u64) -> Request
        requires pending { IsSome (request_at number self.old.pending) }
        ensures taken { request_at number self.old.pending ≡ Some result }
        ensures others { self.new.pending ≡ but number self.old.pending }
        ensures arrived { self.new.arrived ≡ self.old.arrived }
    {
        let request = self.requests.take(number);
        self.notes.forget(request.label.as_label(), number);
        Box::into_inner(request)
    }
}

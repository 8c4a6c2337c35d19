//! Requests in order of arrival, each in the place of its number.

ghost use Rattle.std.specs.Prelude.{
  ◌≡◌,
  ◌<◌,
  ◌+◌,
  ◌++◌,
  ◌^◌,
  ◌∷◌,
  [],
  IfErr,
  IfOk,
  IsSome,
  OnErr,
  OnOk,
  Some,
  length,
};
ghost use Rattle.request_queue.specs.Pending.{but, request_at};
ghost use Rattle.request_queue.specs.Places.{placed};
ghost use Rattle.request_queue.specs.Requests.{lent_shapes, shapes_of};

use crate::request::Request;
use std::alloc::{AllocError, Global};
use std::collections::VecDeque;
use std::marker::Model;

/// Requests with their numbers, and how many have arrived.
#[derive(Drop)]
pub struct Arrivals {
    /// The number of the first place.
    base: u64,
    arrived: u64,
    /// How many places are filled.
    filled: usize,
    /// A place is empty once its request has left. In boxes, so that a place is small.
    places: VecDeque<Option<Box<Request>>>,
}

impl Model for Arrivals {
    ghost use Rattle.request_queue.specs.Pending.{QueueView};

    ghost Value = { QueueView };

    ghost use Rattle.request_queue.specs.Places.{IsInPlace, arrivals_view};

    ghost view = { arrivals_view };

    ghost invariant = { IsInPlace };
}

impl Arrivals {
    /// No request, where so many have arrived.
    pub fn new(alloc: Global, arrived: u64) -> Arrivals
        ensures pending { result.pending ≡ [] }
        ensures arrived { result.arrived ≡ arrived }
    {
        Arrivals {
            base: arrived,
            arrived,
            filled: 0,
            places: VecDeque::new(alloc),
        }
    }

    /// How many requests there are.
    pub fn len(&self) -> usize
        ensures len { result ≡ length self.now.pending }
        ensures small { result < 2 ^ 63 }
    {
        self.filled
    }

    /// How many requests have arrived.
    pub fn arrived(&self) -> u64
        ensures arrived { result ≡ self.now.arrived }
    {
        self.arrived
    }

    /// Puts the requests behind others, oldest first.
    pub fn behind<'a>(&'a self, first: Vec<&'a Request>) -> Result<Vec<&'a Request>, AllocError>
        ensures pending { IfOk result (λ v. lent_shapes v.items
            ≡ lent_shapes first.entry.items ++ shapes_of self.now.pending) }
    {
        put_behind(first, &self.places)
    }

    /// Appends a request under the next number, or gives it back where there is no memory.
    pub fn push(&mut self, request: Box<Request>) -> Result<(), Box<Request>>
        requires room { self.old.arrived + 1 < 2 ^ 64 }
        ensures pending { let old = self.old in OnOk result
            (self.new.pending ≡ old.pending ++ (old.arrived, request.value) ∷ []) }
        ensures arrived { OnOk result (self.new.arrived ≡ self.old.arrived + 1) }
        ensures err { OnErr result (self.new ≡ self.old) }
        ensures back { IfErr result (λ back. back ≡ request) }
    {
        match self.places.push_back(Some(request)) {
            Ok(()) => {
                self.arrived += 1;
                self.filled += 1;
                Ok(())
            }
            Err(failed) => match failed.value {
                Some(request) => Err(request),
                None => unreachable!(),
            },
        }
    }

    /// Removes the request of a number, and returns it.
    pub fn take(&mut self, number: u64) -> Box<Request>
        requires pending { IsSome (request_at number self.old.pending) }
        ensures taken { request_at number self.old.pending ≡ Some result.value }
        ensures others { self.new.pending ≡ but number self.old.pending }
        ensures arrived { self.new.arrived ≡ self.old.arrived }
    {
        let request = self.empty_place(number);
        // Two, so that at last all empty places go, and each call does little.
        self.drop_empty();
        self.drop_empty();
        request
    }

    // Takes the request of a number out of its place.
    fn empty_place(&mut self, number: u64) -> Box<Request>
        requires pending { IsSome (request_at number self.old.pending) }
        ensures taken { request_at number self.old.pending ≡ Some result.value }
        ensures others { self.new.pending ≡ but number self.old.pending }
        ensures arrived { self.new.arrived ≡ self.old.arrived }
    {
        let at = (number - self.base) as usize;
        let request = self.places[at].take().unwrap();
        self.filled -= 1;
        request
    }

    // Lets the first place go where it is empty.
    fn drop_empty(&mut self)
        ensures same { self.new ≡ self.old }
    {
        if let Some(None) = self.places.front() {
            self.places.pop_front();
            self.base += 1;
        }
    }
}

// Puts the requests in places behind others.
fn put_behind<'a>(
    first: Vec<&'a Request>,
    places: &'a VecDeque<Option<Box<Request>>>,
) -> Result<Vec<&'a Request>, AllocError>
    ensures pending { IfOk result (λ v. lent_shapes v.items
        ≡ lent_shapes first.entry.items ++ shapes_of (placed 0 places.now.items)) }
{
    let mut pending = first;
    for at in 0..places.len() {
        if let Some(request) = &places[at] {
            pending.push(request)?;
        }
    }
    Ok(pending)
}

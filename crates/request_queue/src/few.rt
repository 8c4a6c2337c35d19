//! A few requests in a list, without maps.

ghost use Rattle.std.specs.Prelude.{
  ◌≡◌,
  ◌<◌,
  ◌++◌,
  ◌^◌,
  ◌∷◌,
  [],
  IfOk,
  OnErr,
  OnOk,
  get_or,
  length,
};
ghost use Rattle.std.specs.List.{remove as removed};
ghost use Rattle.std.specs.Option.{option_map};
ghost use Rattle.std.specs.Vec.{vec_len};
ghost use Rattle.serve_rules.specs.Wanted.{wanted_labels};
ghost use Rattle.request_queue.specs.Few.{place, told};
ghost use Rattle.request_queue.specs.Pending.{but, oldest, request_at};
ghost use Rattle.request_queue.specs.Requests.{lent_shapes, shapes_of};

use crate::request::Request;
use serve_rules::Wanted;
use std::alloc::{AllocError, Global};
use std::marker::Model;

/// A request with its number.
#[derive(Drop)]
pub struct Arrival {
    number: u64,
    request: Request,
}

/// A few requests with their numbers, oldest first.
#[derive(Drop)]
pub struct Few {
    alloc: Global,
    arrivals: Vec<Arrival>,
}

impl Model for Few {
    ghost use Rattle.std.specs.Prelude.{ℕ, List};
    ghost use Rattle.request_queue.specs.declared.request.Request.{Request};

    ghost Value = { List (ℕ × Request) };

    ghost use Rattle.request_queue.specs.Few.{few_view};

    ghost view = { few_view };
}

impl Few {
    /// No request.
    pub fn new(alloc: Global) -> Few
        ensures none { result ≡ [] }
    {
        Few {
            alloc,
            arrivals: Vec::new(alloc),
        }
    }

    /// How many requests there are.
    pub fn len(&self) -> usize
        ensures len { result ≡ length self.now }
        ensures small { result < 2 ^ 63 }
    {
        self.arrivals.len()
    }

    /// The requests, oldest first.
    pub fn pending(&self) -> Result<Vec<&Request>, AllocError>
        ensures pending { IfOk result
            (λ v. lent_shapes v.items ≡ shapes_of self.now) }
    {
        let mut pending = Vec::with_capacity(self.alloc, self.arrivals.len())?;
        for arrival in &self.arrivals {
            pending.push(&arrival.request)?;
        }
        Ok(pending)
    }

    /// Appends a request under a number.
    pub fn push(&mut self, number: u64, request: Request) -> Result<(), AllocError>
        ensures ok { OnOk result (self.new ≡ self.old ++ (number, request) ∷ []) }
        ensures err { OnErr result (self.new ≡ self.old) }
    {
        if self.arrivals.is_empty() {
            self.arrivals = Vec::with_capacity(self.alloc, 1)?;
        }
        self.arrivals.push(Arrival { number, request })?;
        Ok(())
    }

    /// The number of the oldest request with one of the labels.
    pub fn first_of(&self, wanted: Wanted) -> Option<u64>
        ensures oldest { let found = oldest (wanted_labels wanted.entry) (told self.now) in
            result ≡ option_map (λ x. x.0) found }
    {
        for arrival in &self.arrivals {
            if wanted.has(arrival.request.label.as_label()) {
                return Some(arrival.number);
            }
        }
        None
    }

    /// Removes the request of a number, where it is here, and returns it.
    pub fn take(&mut self, number: u64) -> Option<Request>
        ensures taken { result ≡ request_at number self.old }
        ensures others { self.new ≡ but number self.old }
    {
        match place_of(&self.arrivals, number) {
            Some(at) => Some(take_out(&mut self.arrivals, self.alloc, at).request),
            None => None,
        }
    }
}

fn place_of(arrivals: &[Arrival], number: u64) -> Option<usize>
    ensures place { result ≡ place number arrivals.now }
{
    for at in 0..arrivals.len() {
        if arrivals[at].number == number {
            return Some(at);
        }
    }
    None
}

// Takes out what stands at a place. A list that is empty keeps no memory.
fn take_out(arrivals: &mut Vec<Arrival>, alloc: Global, at: usize) -> Arrival
    requires there { at < vec_len arrivals.old }
    ensures value { let old = arrivals.old.items in result ≡ get_or old at result }
    ensures items { arrivals.new.items ≡ removed arrivals.old.items at }
{
    let arrival = arrivals.remove(at);
    if arrivals.is_empty() {
        *arrivals = Vec::new(alloc);
    }
    arrival
}

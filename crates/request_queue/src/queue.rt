//! The queue. A served request leaves it, and the others keep their order and their numbers.

ghost use Rattle.std.specs.Prelude.{
  ◌≡◌,
  ◌+◌,
  ◌++◌,
  ◌∷◌,
  [],
  IfOk,
  IsSome,
  OnErr,
  OnOk,
  Some,
  length,
  map,
};
ghost use Rattle.std.specs.Option.{option_map};
ghost use Rattle.serve_rules.specs.Wanted.{wanted_labels};
ghost use Rattle.request_queue.specs.Led.{arrived_of, behind};
ghost use Rattle.request_queue.specs.Pending.{but, oldest, request_at, waiting};
ghost use Rattle.request_queue.specs.Requests.{lent_shapes};

use crate::crowd::{Crowd, MOST_ARRIVALS};
use crate::few::Few;
use crate::request::Request;
use serve_rules::Wanted;
use std::alloc::{AllocError, Global};
use std::marker::Model;

// As many requests stand in a list before any goes into the crowd.
const MOST: usize = 4;

/// The pending requests of one activity with their numbers in order of arrival, oldest first, and
/// how many requests have arrived.
pub struct Queue {
    alloc: Global,
    /// How many requests had arrived when the crowd was made, or have arrived where there is none.
    arrived: u64,
    /// They came while there was no crowd, so they are older than those in it.
    few: Few,
    others: Option<Box<Crowd>>,
}

// Written out, so that crates above drop it by one call.
impl Drop for Queue {
    fn drop(self) {
        let Queue {
            alloc: _,
            arrived: _,
            few: _,
            others: _,
        } = self;
    }
}

impl Model for Queue {
    ghost use Rattle.request_queue.specs.Pending.{QueueView};

    ghost Value = { QueueView };

    ghost use Rattle.request_queue.specs.Led.{led_view};

    ghost view = { led_view };
}

impl Queue {
    /// No request.
    pub fn new(alloc: Global) -> Queue
        ensures pending { result.pending ≡ [] }
        ensures arrived { result.arrived ≡ 0 }
    {
        Queue {
            alloc,
            arrived: 0,
            few: Few::new(alloc),
            others: None,
        }
    }

    /// No request, where so many have arrived and were served.
    pub fn after(alloc: Global, arrived: u64) -> Queue
        ensures pending { result.pending ≡ [] }
        ensures arrived { result.arrived ≡ arrived }
    {
        Queue {
            alloc,
            arrived,
            few: Few::new(alloc),
            others: None,
        }
    }

    /// How many requests are pending.
    pub fn len(&self) -> usize
        ensures len { result ≡ length self.now.pending }
    {
        match &self.others {
            Some(crowd) => self.few.len() + crowd.len(),
            None => self.few.len(),
        }
    }

    /// The pending requests, oldest first.
    pub fn pending(&self) -> Result<Vec<&Request>, AllocError>
        ensures pending { IfOk result
            (λ v. lent_shapes v.items ≡ map (λ x. x.1) (waiting self.now)) }
    {
        let few = self.few.pending()?;
        match &self.others {
            Some(crowd) => crowd.behind(few),
            None => Ok(few),
        }
    }

    /// Appends a request under the next number. It fails when as many have arrived as can be numbered,
    /// or without memory.
    pub fn push(&mut self, request: Request) -> Result<(), AllocError>
        ensures pending { let old = self.old in OnOk result
            (self.new.pending ≡ old.pending ++ (old.arrived, request) ∷ []) }
        ensures arrived { OnOk result (self.new.arrived ≡ self.old.arrived + 1) }
        ensures err { OnErr result (self.new ≡ self.old) }
    {
        if self.others.is_none() && self.few.len() < MOST {
            if self.arrived == MOST_ARRIVALS {
                return Err(AllocError);
            }
            self.few.push(self.arrived, request)?;
            self.arrived += 1;
            Ok(())
        } else {
            self.push_behind(request)
        }
    }

    // Appends a request to the crowd, which is made where there is none.
    #[inline(never)]
    fn push_behind(&mut self, request: Request) -> Result<(), AllocError>
        ensures pending { let old = self.old in OnOk result
            (self.new.pending ≡ old.pending ++ (old.arrived, request) ∷ []) }
        ensures arrived { OnOk result (self.new.arrived ≡ self.old.arrived + 1) }
        ensures err { OnErr result (self.new ≡ self.old) }
    {
        let request = Box::new(self.alloc, request)?;
        match &mut self.others {
            Some(crowd) => crowd.push(request),
            None => {
                let mut crowd = Box::new(self.alloc, Crowd::new(self.alloc, self.arrived))?;
                crowd.push(request)?;
                self.others = Some(crowd);
                Ok(())
            }
        }
    }

    /// The number of the oldest request with one of the labels. It takes no memory.
    pub fn first_of(&self, wanted: Wanted) -> Option<u64>
        ensures oldest { let found = oldest (wanted_labels wanted.entry) (waiting self.now) in
            result ≡ option_map (λ x. x.0) found }
    {
        match (self.few.first_of(wanted), &self.others) {
            (Some(number), _) => Some(number),
            (None, Some(crowd)) => crowd.first_of(wanted),
            (None, None) => None,
        }
    }

    /// Removes the request of a number, and returns it.
    pub fn take(&mut self, number: u64) -> Request
        requires pending { IsSome (request_at number self.old.pending) }
        ensures taken { request_at number self.old.pending ≡ Some result }
        ensures others { self.new.pending ≡ but number self.old.pending }
        ensures arrived { self.new.arrived ≡ self.old.arrived }
    {
        match self.few.take(number) {
            Some(request) => request,
            None => take_behind(&mut self.arrived, &mut self.others, number),
        }
    }
}

// Removes the request of a number from a crowd, and returns it. A crowd that is empty is let go.
#[inline(never)]
fn take_behind(arrived: &mut u64, others: &mut Option<Box<Crowd>>, number: u64) -> Request
    requires pending { IsSome (request_at number (behind others.old)) }
    ensures taken { request_at number (behind others.old) ≡ Some result }
    ensures others { behind others.new ≡ but number (behind others.old) }
    ensures arrived { arrived_of arrived.new others.new ≡ arrived_of arrived.old others.old }
{
    let mut crowd = others.take().unwrap();
    let request = crowd.take(number);
    if crowd.len() == 0 {
        *arrived = crowd.arrived();
    } else {
        *others = Some(crowd);
    }
    request
}

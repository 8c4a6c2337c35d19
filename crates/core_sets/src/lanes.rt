//! Marked places, each in a lane. A lane can be closed, and what is marked in it is passed over then.

ghost use Rattle.std.specs.Prelude.{
  ◌≡◌,
  ◌+◌,
  ◌<◌,
  ◌≤◌,
  ◌++◌,
  ◌∷◌,
  [],
  ℕ,
  OnErr,
  OnOk,
  false,
};
ghost use Rattle.core_sets.specs.Firsts.{IsFirstFrom};
ghost use Rattle.core_sets.specs.Lanes.{
  AreLanes,
  ClosedSo,
  IsGrown,
  SameClosed,
  count,
  is_closed,
  is_open,
  lane_count,
  lane_of,
};
ghost use Rattle.core_sets.specs.Marks.{MarkedSo, SameMarks, is_marked};

use crate::lane::Lane;
use crate::limits::MOST_NUMBERED;
use crate::marks::Marks;
use std::alloc::{AllocError, Global};

/// Where a place stands.
#[derive(Clone, Copy, Drop)]
pub struct Spot {
    pub lane: u32,
    pub ordinal: u32,
}

/// Places from 0 on. The first marked place in an open lane is found without a look at those in
/// closed ones.
#[derive(Drop)]
pub struct Lanes {
    alloc: Global,
    marks: Marks,
    spots: Vec<Spot>,
    lanes: Vec<Lane>,
    /// The first marked place of each open lane.
    fronts: Marks,
}

impl Lanes {
    /// No place and no lane.
    pub fn new(alloc: Global) -> Lanes
        ensures lanes { AreLanes result }
        ensures count { count result ≡ 0 }
        ensures lane_count { lane_count result ≡ 0 }
        ensures none { (p : ℕ) → is_marked result.marks p ≡ false }
        ensures open { (k : ℕ) → is_closed result k ≡ false }
    {
        Lanes {
            alloc,
            marks: Marks::new(alloc),
            spots: Vec::new(alloc),
            lanes: Vec::new(alloc),
            fronts: Marks::new(alloc),
        }
    }

    /// Opens lanes, until there is this one.
    pub fn make_lane(&mut self, lane: u32) -> Result<(), AllocError>
        requires lanes { AreLanes self.old }
        ensures lanes { AreLanes self.new }
        ensures marks { self.new.marks ≡ self.old.marks }
        ensures spots { self.new.spots ≡ self.old.spots }
        ensures closed { SameClosed self.old self.new }
        ensures more { lane_count self.old ≤ lane_count self.new }
        ensures lane { OnOk result (lane < lane_count self.new) }
    {
        while self.lanes.len() <= lane as usize {
            self.lanes.push(Lane::new(self.alloc))?;
        }
        Ok(())
    }

    /// One more place, which is not marked, in a lane. It fails when there are as many places as can be
    /// numbered, or without memory.
    pub fn add(&mut self, lane: u32) -> Result<(), AllocError>
        requires lanes { AreLanes self.old }
        requires lane { lane < lane_count self.old }
        ensures lanes { AreLanes self.new }
        ensures marks { SameMarks self.old.marks self.new.marks }
        ensures place { OnOk result (IsGrown lane self.old self.new) }
        ensures closed { SameClosed self.old self.new }
        ensures lane_count { lane_count self.new ≡ lane_count self.old }
        ensures err { OnErr result (self.new.spots.items ≡ self.old.spots.items) }
    {
        let place = self.spots.len();
        if place >= MOST_NUMBERED {
            return Err(AllocError);
        }
        self.marks.make_room(place)?;
        self.fronts.make_room(place)?;
        self.spots.reserve(1)?;
        let ordinal = self.lanes[lane as usize].add(place as u32)?;
        let _ = self.spots.push(Spot { lane, ordinal });
        Ok(())
    }

    /// Marks a place, or takes its mark away.
    pub fn set(&mut self, place: usize, mark: bool)
        requires lanes { AreLanes self.old }
        requires within { place < count self.old }
        ensures lanes { AreLanes self.new }
        ensures marked { MarkedSo place mark self.old.marks self.new.marks }
        ensures spots { self.new.spots ≡ self.old.spots }
        ensures closed { SameClosed self.old self.new }
        ensures lane_count { lane_count self.new ≡ lane_count self.old }
    {
        self.marks.set(place, mark);
        let spot = self.spots[place];
        self.lanes[spot.lane as usize].mark(spot.ordinal as usize, mark, &mut self.fronts);
    }

    /// Closes a lane, or opens it.
    pub fn close(&mut self, lane: u32, closed: bool)
        requires lanes { AreLanes self.old }
        requires within { lane < lane_count self.old }
        ensures lanes { AreLanes self.new }
        ensures marks { self.new.marks ≡ self.old.marks }
        ensures spots { self.new.spots ≡ self.old.spots }
        ensures closed { ClosedSo lane closed self.old self.new }
        ensures lane_count { lane_count self.new ≡ lane_count self.old }
    {
        self.lanes[lane as usize].close(closed, &mut self.fronts);
    }

    /// The first marked place from a place on.
    pub fn next(&self, start: usize) -> Option<usize>
        requires lanes { AreLanes self.now }
        ensures first { IsFirstFrom (is_marked self.now.marks) start result }
    {
        self.marks.next(start)
    }

    /// The first marked place in an open lane.
    pub fn first_open(&self) -> Option<usize>
        requires lanes { AreLanes self.now }
        ensures first { IsFirstFrom (is_open self.now) 0 result }
    {
        self.fronts.first()
    }
}

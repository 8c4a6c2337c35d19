//! Where all activities stand.

ghost use Rattle.std.specs.Prelude.{◌≡◌, ℕ, OnOk};
ghost use Rattle.asp_model.specs.Shapes.{future_shape};
ghost use Rattle.core_ranks.specs.Numbers.{IsFirst, has_number};
ghost use Rattle.core_ranks.specs.Ranks.{
  AreShifted,
  IsAwaitTold,
  IsRanked,
  OthersStay,
  RankShape,
  Rests,
  Waits,
  rank_shape,
  rested,
};

use crate::numbers::Numbers;
use crate::rank::Rank;
use crate::waiting::Waiting;
use asp_model::FutureName;
use std::alloc::{AllocError, Global};

/// The numbers of those who may step, of those to whom a value is owed, of those who wait, and of
/// those who await round a cycle. All others rest, or somebody works on them.
#[derive(Drop)]
pub struct Ranks {
    alloc: Global,
    going: Numbers,
    needy: Numbers,
    waiting: Waiting,
    circling: Numbers,
}

impl Ranks {
    /// All rest.
    pub fn new(alloc: Global) -> Ranks
        ensures rest { (k : ℕ) → IsRanked result k Rests }
    {
        Ranks {
            alloc,
            going: Numbers::new(alloc),
            needy: Numbers::new(alloc),
            waiting: Waiting::new(alloc),
            circling: Numbers::new(alloc),
        }
    }

    /// The least number of those who may step.
    pub fn first_going(&self) -> Option<u32>
        ensures first { IsFirst self.now.going.keys result }
    {
        self.going.first()
    }

    /// The least number of those to whom a value is owed.
    pub fn first_needy(&self) -> Option<u32>
        ensures first { IsFirst self.now.needy.keys result }
    {
        self.needy.first()
    }

    /// Whether an activity may step.
    pub fn goes(&self, number: u32) -> bool
        ensures goes { result ≡ has_number number self.now.going.keys }
    {
        self.going.contains(number)
    }

    /// Whether a value is owed to an activity.
    pub fn has_need(&self, number: u32) -> bool
        ensures has_need { result ≡ has_number number self.now.needy.keys }
    {
        self.needy.contains(number)
    }

    /// Whether somebody awaits a future, be it without a value or round a cycle.
    pub fn someone_awaits(&self) -> bool
        ensures told { IsAwaitTold self.now result }
    {
        match self.circling.first() {
            Some(_) => true,
            None => match self.waiting.someone() {
                Some(_) => true,
                None => false,
            },
        }
    }

    /// An activity may step no more, and nothing is owed to it. It takes no memory.
    pub fn leave(&mut self, number: u32)
        ensures here { (x : RankShape) → IsRanked self.old number x →
            IsRanked self.new number (rested x) }
        ensures others { OthersStay number self.old self.new }
    {
        self.going.remove(number);
        self.needy.remove(number);
    }

    /// An activity stands so, which rested.
    pub fn rank(&mut self, number: u32, rank: Rank) -> Result<(), AllocError>
        requires rests { IsRanked self.old number Rests }
        ensures here { OnOk result (IsRanked self.new number (rank_shape rank)) }
        ensures others { OnOk result (OthersStay number self.old self.new) }
    {
        match rank {
            Rank::Goes => self.going.add(number),
            Rank::HasNeed => self.needy.add(number),
            Rank::Waits(future) => self.wait(number, future),
            Rank::Circles => self.circling.add(number),
            Rank::Rests => Ok(()),
        }
    }

    fn wait(&mut self, number: u32, future: FutureName) -> Result<(), AllocError>
        requires rests { IsRanked self.old number Rests }
        ensures here { OnOk result (IsRanked self.new number (Waits (future_shape future))) }
        ensures others { OnOk result (OthersStay number self.old self.new) }
    {
        let mut numbers = Vec::new(self.alloc);
        numbers.push(number)?;
        self.waiting.join(future, numbers)
    }

    /// Who waits for this future stands so.
    pub fn shift(&mut self, future: &FutureName, rank: Rank) -> Result<(), AllocError>
        ensures shifted { let f = future_shape future.now in
            OnOk result (AreShifted f (rank_shape rank) self.old self.new) }
    {
        let numbers = self.waiting.take(future);
        match rank {
            Rank::Goes => self.going.add_all(numbers),
            Rank::HasNeed => self.needy.add_all(numbers),
            Rank::Waits(other) => self.waiting.join(other, numbers),
            Rank::Circles => self.circling.add_all(numbers),
            Rank::Rests => Ok(()),
        }
    }
}

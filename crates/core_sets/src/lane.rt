//! The places of one lane, in rising order, and which of them are marked.

ghost use Rattle.std.specs.Prelude.{
  ◌≡◌,
  ◌<◌,
  ◌++◌,
  ◌∷◌,
  [],
  ℕ,
  IfOk,
  OnErr,
  OnOk,
  false,
};
ghost use Rattle.core_sets.specs.Lanes.{
  AreShown,
  FitIn,
  IsFront,
  IsLane,
  IsWithin,
  KeepsOthers,
  ShownSo,
  place_at,
  size_of,
};
ghost use Rattle.core_sets.specs.Marks.{IsTree, MarkedSo, SameMarks, room as room_of};

use crate::marks::Marks;
use std::alloc::{AllocError, Global};

/// A place has an ordinal in its lane, from 0 on.
#[derive(Drop)]
pub struct Lane {
    pub closed: bool,
    pub places: Vec<u32>,
    /// By ordinals.
    pub marks: Marks,
}

impl Lane {
    /// Open, without a place.
    pub fn new(alloc: Global) -> Lane
        ensures lane { IsLane result }
        ensures none { size_of result ≡ 0 }
        ensures open { result.closed ≡ false }
    {
        Lane {
            closed: false,
            places: Vec::new(alloc),
            marks: Marks::new(alloc),
        }
    }

    /// One more place, which is not marked. The answer is its ordinal.
    pub fn add(&mut self, place: u32) -> Result<u32, AllocError>
        requires lane { IsLane self.old }
        requires last { (i : ℕ) → i < size_of self.old → place_at self.old i < place }
        ensures lane { IsLane self.new }
        ensures closed { self.new.closed ≡ self.old.closed }
        ensures marks { SameMarks self.old.marks self.new.marks }
        ensures places { OnOk result
            (self.new.places.items ≡ self.old.places.items ++ place ∷ []) }
        ensures ordinal { IfOk result (λ ordinal. ordinal ≡ size_of self.old) }
        ensures err { OnErr result (self.new.places.items ≡ self.old.places.items) }
    {
        let ordinal = self.places.len();
        self.marks.make_room(ordinal)?;
        self.places.push(place)?;
        Ok(ordinal as u32)
    }

    /// Marks the place of an ordinal, or takes its mark away.
    pub fn mark(&mut self, ordinal: usize, mark: bool, fronts: &mut Marks)
        requires lane { IsLane self.old }
        requires within { ordinal < size_of self.old }
        requires tree { IsTree fronts.old }
        requires room { FitIn self.old (room_of fronts.old) }
        requires shown { AreShown self.old fronts.old }
        ensures lane { IsLane self.new }
        ensures places { self.new.places ≡ self.old.places }
        ensures closed { self.new.closed ≡ self.old.closed }
        ensures marked { MarkedSo ordinal mark self.old.marks self.new.marks }
        ensures tree { IsTree fronts.new }
        ensures kept { room_of fronts.new ≡ room_of fronts.old }
        ensures shown { AreShown self.new fronts.new }
        ensures others { KeepsOthers self.old fronts.old fronts.new }
    {
        let before = self.front();
        self.marks.set(ordinal, mark);
        let after = self.front();
        self.show(before, false, fronts);
        self.show(after, true, fronts);
    }

    /// Closes the lane, or opens it.
    pub fn close(&mut self, closed: bool, fronts: &mut Marks)
        requires lane { IsLane self.old }
        requires tree { IsTree fronts.old }
        requires room { FitIn self.old (room_of fronts.old) }
        requires shown { AreShown self.old fronts.old }
        ensures lane { IsLane self.new }
        ensures places { self.new.places ≡ self.old.places }
        ensures closed { self.new.closed ≡ closed }
        ensures marks { self.new.marks ≡ self.old.marks }
        ensures tree { IsTree fronts.new }
        ensures kept { room_of fronts.new ≡ room_of fronts.old }
        ensures shown { AreShown self.new fronts.new }
        ensures others { KeepsOthers self.old fronts.old fronts.new }
    {
        let before = self.front();
        self.closed = closed;
        let after = self.front();
        self.show(before, false, fronts);
        self.show(after, true, fronts);
    }

    // The ordinal of the first marked place, where the lane is open.
    fn front(&self) -> Option<usize>
        requires lane { IsLane self.now }
        ensures front { IsFront self.now result }
    {
        if self.closed {
            return None;
        }
        self.marks.first()
    }

    // Marks the place of an ordinal among the fronts, or takes its mark away.
    fn show(&self, ordinal: Option<usize>, mark: bool, fronts: &mut Marks)
        requires tree { IsTree fronts.old }
        requires within { IsWithin self.now ordinal }
        requires room { FitIn self.now (room_of fronts.old) }
        ensures tree { IsTree fronts.new }
        ensures kept { room_of fronts.new ≡ room_of fronts.old }
        ensures shown { ShownSo self.now ordinal mark fronts.old fronts.new }
    {
        if let Some(ordinal) = ordinal {
            fronts.set(self.places[ordinal] as usize, mark);
        }
    }
}

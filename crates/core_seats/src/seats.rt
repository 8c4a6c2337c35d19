//! The seats of all activities.

ghost use Rattle.std.specs.Prelude.{◌≡◌, ◌++◌, ◌∷◌, [], IfOk, IfSome, List, None, OnOk, Some};
ghost use Rattle.std.specs.Prelude.{false, length, nat_lt, slice_get};
ghost use Rattle.std.specs.Option.{option_map};
ghost use Rattle.core_seats.specs.Seats.{
  AreSeats,
  In,
  IsFound,
  IsKnown,
  IsOut,
  IsTaken,
  Out,
  count_out,
  is_in,
  names_in,
  seat_at,
  seat_shape,
  seats_in,
  with_seat,
};

use crate::seat::Seat;
use asp_model::ActivityName;
use indexmap::IndexSet;
use std::alloc::{AllocError, Global};
use std::mem;

/// The activities of a run, at most: each has a number of 32 bits.
pub const MOST_ACTIVITIES: usize = 4_294_967_295;

/// Activities under numbers from 0, in the order in which they were added.
#[derive(Drop)]
pub struct Seats<X, R> {
    alloc: Global,
    names: IndexSet<ActivityName>,
    seats: Vec<Seat<X, R>>,
    away: usize,
}

impl<X: Drop, R: Drop> Seats<X, R> {
    /// No activity.
    pub fn new(alloc: Global) -> Seats<X, R>
        ensures names { names_in result ≡ [] }
        ensures seats { seats_in result ≡ [] }
        ensures kept { AreSeats result }
    {
        Seats {
            alloc,
            names: IndexSet::new(alloc),
            seats: Vec::new(alloc),
            away: 0,
        }
    }

    /// How many activities there are.
    pub fn len(&self) -> usize
        ensures len { result ≡ length (seats_in self.now) }
    {
        self.seats.len()
    }

    /// The name of an activity.
    pub fn name(&self, number: u32) -> &ActivityName
        requires kept { AreSeats self.now }
        requires known { IsKnown number self.now }
        ensures name { slice_get (names_in self.now) number ≡ Some result.now }
    {
        &self.names.as_slice()[number as usize]
    }

    /// The number of a name, if an activity has it.
    pub fn number_of(&self, name: &ActivityName) -> Option<u32>
        requires kept { AreSeats self.now }
        ensures found { IsFound (names_in self.now) name.now result }
        ensures known { IfSome result (λ k. IsKnown k self.now) }
    {
        match self.names.get_index_of(name) {
            Some(number) => Some(number as u32),
            None => None,
        }
    }

    /// An activity that is here, under the next number.
    pub fn add(&mut self, name: ActivityName, here: Box<X>) -> Result<u32, AllocError>
        requires kept { AreSeats self.old }
        requires new { IsFound (names_in self.old) name None }
        ensures number { IfOk result (λ k. k ≡ length (seats_in self.old)) }
        ensures names { OnOk result (names_in self.new ≡ names_in self.old ++ name ∷ []) }
        ensures seats { OnOk result (seats_in self.new ≡ seats_in self.old ++ In here.value ∷ []) }
        ensures kept { OnOk result (AreSeats self.new) }
    {
        let number = self.seats.len();
        if number >= MOST_ACTIVITIES {
            return Err(AllocError);
        }
        self.seats.push(Seat::In(here))?;
        self.names.insert(name)?;
        Ok(number as u32)
    }

    /// Whether an activity is here.
    pub fn is_in(&self, number: u32) -> bool
        requires known { IsKnown number self.now }
        ensures here { result ≡ is_in (seat_at self.now number) }
    {
        match &self.seats[number as usize] {
            Seat::In(_) => true,
            Seat::Out(_) => false,
        }
    }

    /// The activity that is here.
    pub fn get(&self, number: u32) -> Option<&X>
        requires known { IsKnown number self.now }
        ensures here { IsTaken (seat_at self.now number) (option_map (λ x. x.now) result) }
    {
        match &self.seats[number as usize] {
            Seat::In(activity) => Some(activity.as_ref()),
            Seat::Out(_) => None,
        }
    }

    /// Whether some activity was taken.
    pub fn is_any_out(&self) -> bool
        requires kept { AreSeats self.now }
        ensures out { result ≡ nat_lt 0 (count_out (seats_in self.now)) }
    {
        self.away > 0
    }

    /// Another seat for an activity. What was there is answered.
    fn swap(&mut self, number: u32, seat: Seat<X, R>) -> Seat<X, R>
        requires known { IsKnown number self.old }
        ensures was { seat_at self.old number ≡ Some (seat_shape result) }
        ensures names { names_in self.new ≡ names_in self.old }
        ensures seats { seats_in self.new
            ≡ with_seat (seats_in self.old) number (seat_shape seat) }
        ensures away { self.new.away ≡ self.old.away }
    {
        mem::replace(&mut self.seats[number as usize], seat)
    }

    /// Takes an activity that is here, and leaves an empty box for what comes. It takes no memory.
    pub fn take(&mut self, number: u32) -> Option<Box<X>>
        requires kept { AreSeats self.old }
        requires known { IsKnown number self.old }
        ensures taken { let taken = option_map (λ b. b.value) result in
            IsTaken (seat_at self.old number) taken }
        ensures left { IfSome result (λ x. seats_in self.new
            ≡ with_seat (seats_in self.old) number (Out [])) }
        ensures none { result ≡ None → seats_in self.new ≡ seats_in self.old }
        ensures names { names_in self.new ≡ names_in self.old }
        ensures kept { AreSeats self.new }
    {
        match self.swap(number, Seat::Out(Vec::new(self.alloc))) {
            Seat::In(here) => {
                self.away += 1;
                Some(here)
            }
            Seat::Out(came) => {
                self.swap(number, Seat::Out(came));
                None
            }
        }
    }

    /// Brings an activity back that was taken, and answers what came for it. It takes no memory.
    pub fn put(&mut self, number: u32, here: Box<X>) -> Vec<R>
        requires kept { AreSeats self.old }
        requires known { IsKnown number self.old }
        requires out { is_in (seat_at self.old number) ≡ false }
        ensures came { IsOut (seat_at self.old number) result.items }
        ensures names { names_in self.new ≡ names_in self.old }
        ensures seats { seats_in self.new ≡ with_seat (seats_in self.old) number (In here.value) }
        ensures kept { AreSeats self.new }
    {
        match self.swap(number, Seat::In(here)) {
            Seat::In(_) => unreachable!(),
            Seat::Out(came) => {
                self.away -= 1;
                came
            }
        }
    }

    /// Empties the box of an activity that was taken, and answers what came for it. It takes no
    /// memory.
    pub fn collect(&mut self, number: u32) -> Vec<R>
        requires kept { AreSeats self.old }
        requires known { IsKnown number self.old }
        requires out { is_in (seat_at self.old number) ≡ false }
        ensures came { IsOut (seat_at self.old number) result.items }
        ensures names { names_in self.new ≡ names_in self.old }
        ensures seats { seats_in self.new ≡ with_seat (seats_in self.old) number (Out []) }
        ensures kept { AreSeats self.new }
    {
        match self.swap(number, Seat::Out(Vec::new(self.alloc))) {
            Seat::In(_) => unreachable!(),
            Seat::Out(came) => came,
        }
    }

    /// What comes for an activity that was taken goes into its box, behind the rest.
    pub fn post(&mut self, number: u32, came: R) -> Result<(), AllocError>
        requires kept { AreSeats self.old }
        requires known { IsKnown number self.old }
        requires out { is_in (seat_at self.old number) ≡ false }
        ensures posted { (rs : List R) → seat_at self.old number ≡ Some (Out rs) →
            let more = Out (rs ++ came ∷ []) in
            OnOk result (seats_in self.new ≡ with_seat (seats_in self.old) number more) }
        ensures names { names_in self.new ≡ names_in self.old }
        ensures kept { AreSeats self.new }
    {
        match self.swap(number, Seat::Out(Vec::new(self.alloc))) {
            Seat::In(_) => unreachable!(),
            Seat::Out(mut rest) => {
                rest.push(came)?;
                self.swap(number, Seat::Out(rest));
                Ok(())
            }
        }
    }
}

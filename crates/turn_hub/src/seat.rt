//! A seat of a hub.

ghost use Rattle.std.specs.Prelude.{◌≡◌, ◌+◌, ◌-◌, ◌<◌, ◌≤◌, ◌∷◌};
ghost use Rattle.turn_hub.specs.Numbers.{behind};
ghost use Rattle.turn_hub.specs.Sharing.{carried};

use crate::view::View;

/// A seat as the table knows it: its view, and the slot while it has the turn.
pub(crate) type Place<H> = atomic_table::Seat<Option<H>, View<H>>;

/// A worker's token: the right to take turns under a number, and to give so many seats more.
#[derive(Drop)]
pub struct Seat<H> {
    pub(crate) place: Place<H>,
    pub(crate) number: u32,
    pub(crate) parts: u32,
    /// How many seats its hub was made for.
    pub(crate) among: u32,
    /// How many calls there were at its last turn.
    pub(crate) heard: u64,
    ghost some_part: { 0 < parts },
    ghost within: { number + parts ≤ among },
    ghost numbered: { place.me.0.numbers ≡ number ∷ behind number (parts - 1) },
    ghost carries: { place.me.1 ≡ carried place.me.0.taken },
}

impl<H> Seat<H> {
    /// Its number, which no other seat of the hub has.
    pub fn number(&self) -> u32
        ensures number { result ≡ self.now.number }
        ensures within { result < self.now.among }
    {
        self.number
    }

    /// How many seats it is, with those that it can still give.
    pub fn parts(&self) -> u32
        ensures parts { result ≡ self.now.parts }
        ensures some_part { 0 < result }
    {
        self.parts
    }
}

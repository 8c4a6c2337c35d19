//! Who may be able to step.

ghost use Rattle.std.specs.Prelude.{◌≡◌, ◌<◌, OnOk, false, length, true};
ghost use Rattle.asp_model.specs.Names.{Name};
ghost use Rattle.replay_parts.specs.Roster.{IsRoster};
ghost use Rattle.replay_parts.specs.Ready.{Ascend, IsAdded, IsLeast, IsLesser, IsNumberFirst, is_named};

use crate::numbers::Numbers;
use crate::roster::Roster;
use asp_model::ActivityName;
use std::alloc::{AllocError, Global};
use std::collections::BTreeSet;

/// Those who are ready. Where names ascend as their numbers do, below `ordered`, they stand by their
/// numbers, so that no name is compared; all others stand by their names.
#[derive(Drop)]
pub struct Ready {
    pub ordered: u32,
    pub numbers: Numbers,
    pub others: BTreeSet<ActivityName>,
}

/// The least-named of those who are ready.
#[derive(Clone, Copy)]
pub enum Least {
    Nobody,
    One(u32),
    /// Nobody who has a number.
    Unknown,
}

impl Ready {
    /// Nobody is ready. The names of so many numbers ascend.
    pub fn new(alloc: Global, ordered: u32) -> Ready
        ensures ordered { result.ordered ≡ ordered }
    {
        Ready {
            ordered,
            numbers: Numbers::new(alloc),
            others: BTreeSet::new(alloc),
        }
    }

    /// One is ready.
    pub fn add(&mut self, alloc: Global, roster: &Roster, number: u32) -> Result<(), AllocError>
        requires known { number < length roster.now }
        ensures added { OnOk result (IsAdded roster.now number self.old self.new) }
    {
        if number < self.ordered {
            return self.numbers.add(number);
        }
        self.others.insert(roster.name(number).copy(alloc)?)?;
        Ok(())
    }

    /// Whether one who stands by its name is less than this name.
    fn has_lesser(&self, name: &ActivityName) -> bool
        ensures lesser { IsLesser self.now name.now result }
    {
        match self.others.first() {
            Some(other) => other < name,
            None => false,
        }
    }

    /// Whether the first of those who stand by their numbers goes before all others.
    fn is_number_first(&self, roster: &Roster) -> bool
        requires sound { IsRoster roster.now }
        requires ascending { Ascend self.now.ordered roster.now }
        ensures first { IsNumberFirst roster.now self.now result }
    {
        let Some(first) = self.numbers.first() else {
            return false;
        };
        if first >= self.ordered {
            return true;
        }
        !self.has_lesser(roster.name(first))
    }

    /// The first of those who stand by their numbers leaves.
    fn take_number(&mut self, roster: &Roster) -> Least
        requires sound { IsRoster roster.now }
        requires ascending { Ascend self.old.ordered roster.now }
        requires first { IsNumberFirst roster.now self.old true }
        ensures least { IsLeast roster.now self.old result self.new }
        ensures ordered { self.new.ordered ≡ self.old.ordered }
    {
        match self.numbers.take_first() {
            Some(number) if number < self.ordered => Least::One(number),
            Some(_) => Least::Unknown,
            None => Least::Nobody,
        }
    }

    /// The least of those who stand by their names leaves.
    fn take_other(&mut self, roster: &Roster) -> Least
        requires sound { IsRoster roster.now }
        requires ascending { Ascend self.old.ordered roster.now }
        requires first { IsNumberFirst roster.now self.old false }
        ensures least { IsLeast roster.now self.old result self.new }
        ensures ordered { self.new.ordered ≡ self.old.ordered }
    {
        match self.others.pop_first() {
            Some(name) => match roster.number(&name) {
                Some(number) => Least::One(number),
                None => Least::Unknown,
            },
            None => Least::Nobody,
        }
    }

    /// The first of those who stand by their numbers leaves, where nobody stands by a name.
    fn take_alone(&mut self, roster: &Roster) -> Least
        requires sound { IsRoster roster.now }
        requires ascending { Ascend self.old.ordered roster.now }
        requires alone { (m : Name) → is_named self.old m ≡ false }
        ensures least { IsLeast roster.now self.old result self.new }
        ensures ordered { self.new.ordered ≡ self.old.ordered }
    {
        match self.numbers.take_first() {
            Some(number) if number < self.ordered => Least::One(number),
            Some(_) => Least::Unknown,
            None => Least::Nobody,
        }
    }

    /// The least of those who are ready leaves.
    pub fn take_least(&mut self, roster: &Roster) -> Least
        requires sound { IsRoster roster.now }
        requires ascending { Ascend self.old.ordered roster.now }
        ensures least { IsLeast roster.now self.old result self.new }
        ensures ordered { self.new.ordered ≡ self.old.ordered }
    {
        if self.others.is_empty() {
            self.take_alone(roster)
        } else if self.is_number_first(roster) {
            self.take_number(roster)
        } else {
            self.take_other(roster)
        }
    }
}

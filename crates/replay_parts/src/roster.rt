//! Names of activities under numbers from 0, in the order in which they were entered.

ghost use Rattle.std.specs.Prelude.{◌≡◌, ◌<◌, IfOk, IsTrue, Some, [], length, slice_get};
ghost use Rattle.def_journals.specs.Journals.{number_of};
ghost use Rattle.replay_parts.specs.Roster.{IsEntered, IsRoster};

use asp_model::ActivityName;
use indexmap::IndexSet;
use std::alloc::{AllocError, Global};
use std::marker::Model;

/// The names that have numbers, at most: each has a number of 32 bits.
const MOST_NAMES: usize = 4_294_967_295;

/// Names under numbers, seen as the list of names, none of which stands twice.
#[derive(Drop)]
pub struct Roster {
    names: IndexSet<ActivityName>,
}

impl Model for Roster {
    ghost use Rattle.std.specs.Prelude.{List};
    ghost use Rattle.asp_model.specs.Names.{Name};

    ghost Value = { List Name };

    ghost use Rattle.replay_parts.specs.Roster.{IsRoster};

    ghost view = { λ r. r.names.keys };

    ghost invariant = { λ r. IsRoster r.names.keys };
}

impl Roster {
    /// No name.
    pub fn new(alloc: Global) -> Roster
        ensures none { result ≡ [] }
        ensures sound { IsRoster result }
    {
        Roster {
            names: IndexSet::new(alloc),
        }
    }

    /// How many names there are.
    pub fn len(&self) -> usize
        ensures len { result ≡ length self.now }
        ensures sound { IsRoster self.now }
    {
        self.names.len()
    }

    /// The name of a number.
    pub fn name(&self, number: u32) -> &ActivityName
        requires within { number < length self.now }
        ensures name { slice_get self.now number ≡ Some result.now }
    {
        &self.names.as_slice()[number as usize]
    }

    /// The number of a name, if it was entered.
    pub fn number(&self, name: &ActivityName) -> Option<u32>
        ensures number { result ≡ number_of name.now self.now }
        ensures sound { IsRoster self.now }
    {
        match self.names.get_index_of(name) {
            Some(number) => Some(number as u32),
            None => None,
        }
    }

    /// The number of a name, if it was entered. It is not looked up where it is the guess.
    pub fn number_guessed(&self, name: &ActivityName, guess: u32) -> Option<u32>
        ensures number { result ≡ number_of name.now self.now }
    {
        if self.has(guess, name) {
            Some(guess)
        } else {
            self.number(name)
        }
    }

    // Whether a number is that of a name.
    fn has(&self, number: u32, name: &ActivityName) -> bool
        ensures has { IsTrue result → number_of name.now self.now ≡ Some number }
    {
        if number as usize >= self.len() {
            return false;
        }
        self.name(number) == name
    }

    /// The number of a name, which is the next one where it was not entered.
    pub fn enter(&mut self, name: ActivityName) -> Result<u32, AllocError>
        ensures entered { IfOk result (λ k. IsEntered name k self.old self.new) }
        ensures sound { IsRoster self.new }
    {
        if self.names.len() >= MOST_NAMES {
            return Err(AllocError);
        }
        let (number, _) = self.names.insert_full(name)?;
        Ok(number as u32)
    }
}

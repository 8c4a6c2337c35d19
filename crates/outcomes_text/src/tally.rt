//! The outcomes of ends, counted as they come.

ghost use Rattle.std.specs.Prelude.{◌≡◌, ◌<◌, ◌+◌, ◌-◌, ◌^◌, [], OnOk, length, option_copied, option_map, slice_get, string_bytes};
ghost use Rattle.outcomes_text.specs.Outcomes.{with_end};
ghost use Rattle.outcomes_text.specs.Tallies.{AreFew, AreWithin, outcome_lent, share_with};

use indexmap::IndexMap;
use std::alloc::{AllocError, Global};
use std::marker::Model;

/// What an outcome has of the ends.
#[derive(Debug, Clone, Copy)]
pub struct Share {
    /// How many ends have it.
    pub ends: u64,
    /// The number of the first of them, from 0.
    pub first: usize,
}

/// Outcomes in the order in which they came first, each with its share of the ends.
#[derive(Drop)]
pub struct Tally {
    outcomes: IndexMap<String, Share>,
}

impl Model for Tally {
    ghost use Rattle.std.specs.Prelude.{List};
    ghost use Rattle.outcomes_text.specs.Outcomes.{Outcome};
    ghost use Rattle.outcomes_text.specs.Tallies.{outcomes_in};

    ghost Value = { List Outcome };

    ghost view = { λ t. outcomes_in t.outcomes.entries };
}

/// The share with one end more, which is the first if there was none.
fn share_with_one(share: Option<&Share>, number: usize) -> Share
    requires few { AreFew number (option_copied share) }
    requires room { number < 2 ^ 64 - 1 }
    ensures more { result ≡ share_with number (option_copied share.entry) }
{
    match share {
        Some(share) => Share {
            ends: share.ends + 1,
            first: share.first,
        },
        None => Share {
            ends: 1,
            first: number,
        },
    }
}

impl Tally {
    /// No outcome.
    pub fn new(alloc: Global) -> Tally
        ensures none { result ≡ [] }
    {
        Tally {
            outcomes: IndexMap::new(alloc),
        }
    }

    /// One end more, with its number and what is seen of it.
    pub fn add(&mut self, number: usize, text: String) -> Result<(), AllocError>
        requires within { AreWithin number self.old }
        requires room { number < 2 ^ 64 - 1 }
        ensures counted { OnOk result (self.new ≡ with_end number (string_bytes text) self.old) }
        ensures within { OnOk result (AreWithin (number + 1) self.new) }
    {
        let share = share_with_one(self.outcomes.get(&text), number);
        self.outcomes.insert(text, share)?;
        Ok(())
    }

    /// How many outcomes there are.
    pub fn len(&self) -> usize
        ensures len { result ≡ length self.now }
    {
        self.outcomes.len()
    }

    /// The outcome of this number, from 0: what is seen of its ends, and its share.
    pub fn get(&self, number: usize) -> Option<(&String, &Share)>
        ensures outcome { option_map outcome_lent result ≡ slice_get self.now number }
    {
        self.outcomes.get_index(number)
    }
}

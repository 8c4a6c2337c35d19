//! How far a run may go, and in which order requests and polls may come.

ghost use Rattle.std.specs.Prelude.{◌≡◌, IfOk, List, Some, T, length, map};
ghost use Rattle.std.specs.FinMap.{is_sorted};
ghost use Rattle.asp_model.specs.Names.{Name, name_cmp};
ghost use Rattle.asp_model.specs.Shapes.{reception_shape};
ghost use Rattle.replay_parts.specs.Ready.{Ascend};
ghost use Rattle.replay_parts.specs.Bounds.{
  IsAscending,
  IsNextAmong,
  IsNextAt,
  IsNumbered,
  count_within,
  lists_within,
};
ghost use Rattle.def_journals.specs.Journals.{number_of};
ghost use Rattle.replay_parts.specs.Roster.{IsRoster};

use crate::roster::Roster;
use asp_model::{ActivityName, Counts, Lists, Reception};
use std::alloc::{AllocError, Global};

/// What bounds a run.
#[derive(Clone, Copy)]
pub enum Bounds<'a> {
    /// So many reductions, of each activity and in all, and requests and polls in any order.
    Budget(u64),
    /// The logs of a run, and its counts. Their names have the first numbers, in order.
    Listed(&'a Lists, &'a Counts),
}

/// What a log may note next.
#[derive(Clone, Copy)]
pub enum Next<'a> {
    Anything,
    Only(&'a Reception),
    Nothing,
}

fn next_among(log: &[Reception], place: usize) -> Next
    ensures next { IsNextAmong (map reception_shape log.now) place result }
{
    match log.get(place) {
        Some(reception) => Next::Only(reception),
        None => Next::Nothing,
    }
}

/// The names of logs, each under the number of its place.
fn names_of(alloc: Global, lists: &[(ActivityName, Vec<Reception>)]) -> Result<Roster, AllocError>
    requires ascending { T (is_sorted name_cmp lists.now) }
    ensures names { IfOk result (λ r. r ≡ map (λ x. x.0) lists.now) }
    ensures sound { IfOk result IsRoster }
{
    let mut roster = Roster::new(alloc);
    for list in lists {
        roster.enter(list.0.copy(alloc)?)?;
    }
    Ok(roster)
}

impl Bounds<'_> {
    /// The names that have numbers before the run begins.
    pub fn roster(&self, alloc: Global) -> Result<Roster, AllocError>
        requires ascending { IsAscending self.now }
        ensures numbered { IfOk result (IsNumbered self.now) }
        ensures sound { IfOk result IsRoster }
        ensures ascending { IfOk result (λ r. Ascend (length r) r) }
    {
        match self {
            Bounds::Budget(_) => Ok(Roster::new(alloc)),
            Bounds::Listed(lists, _) => names_of(alloc, &lists.entries),
        }
    }

    /// How many reductions an activity may take.
    pub fn count(&self, number: u32) -> u64
        requires ascending { IsAscending self.now }
        ensures count { (ns : List Name) (n : Name) → IsRoster ns → IsNumbered self.now ns →
            number_of n ns ≡ Some number → result ≡ count_within self.now n }
    {
        match self {
            Bounds::Budget(budget) => *budget,
            Bounds::Listed(_, counts) => match counts.entries.get(number as usize) {
                Some(count) => count.1,
                None => 0,
            },
        }
    }

    /// What the log of an activity may note at a place, from 0.
    pub fn next(&self, to: u32, place: usize) -> Next
        requires ascending { IsAscending self.now }
        ensures next { (ns : List Name) (n : Name) → IsRoster ns → IsNumbered self.now ns →
            number_of n ns ≡ Some to → IsNextAt (lists_within self.now) n place result }
    {
        match self {
            Bounds::Budget(_) => Next::Anything,
            Bounds::Listed(lists, _) => match lists.entries.get(to as usize) {
                Some(list) => next_among(&list.1, place),
                None => Next::Nothing,
            },
        }
    }
}

//! The first entry of a log at which another run has another.

ghost use Rattle.std.specs.Prelude.{◌≡◌, IfOk, map, option_map};
ghost use Rattle.std.specs.Option.{option_copied};
ghost use Rattle.asp_model.specs.Shapes.{counts_shape, lists_shape, reception_shape};
ghost use Rattle.explain.specs.Differences.{IsFirstDifference, Tells, is_other as is_other_than};
ghost use Rattle.explain.specs.OrderKept.{entry_shape, log_entry};

use crate::differences::logs::numbers_in;
use crate::differences::order::Entry;
use crate::differences::places::Places;
use crate::differences::same::{are_same_counts, are_same_lists, is_same};
use asp_model::{ActivityName, Counts, Lists, Reception};
use std::alloc::{AllocError, Global};

/// Where an entry stands: among all entries, in the order in which they are made, and in its log.
#[derive(Clone, Copy)]
pub struct Difference {
    pub index: usize,
    pub place: usize,
}

/// What a run is beside another one.
#[derive(Clone, Copy)]
pub enum Comparison {
    /// They have the same logs and counts.
    Same,
    /// The first entry at which the other run has another.
    Differs(Difference),
    /// No entry differs: one of the runs went further.
    Further,
}

// The other run has something else there.
fn is_other(noted: &Reception, other: Option<&Reception>) -> bool
    ensures { result ≡ is_other_than (reception_shape noted.now)
        (option_map reception_shape (option_copied other.entry)) }
{
    match other {
        Some(reception) => !is_same(noted, reception),
        None => false,
    }
}

/// The first entry, in the order in which a run makes them, at which the log of another run has
/// another entry.
fn first_difference(
    alloc: Global,
    order: &[Entry],
    others: &[(ActivityName, Vec<Reception>)],
) -> Result<Option<Difference>, AllocError>
    ensures first { IfOk result
        (IsFirstDifference (map log_entry others.now) (map entry_shape order.now)) }
{
    let numbers = numbers_in(alloc, others)?;
    let mut places = Places::new(alloc);
    for index in 0..order.len() {
        let entry = &order[index];
        let place = places.next(&entry.to)?;
        if is_other(&entry.noted, numbers.entry(others, &entry.to, place)) {
            return Ok(Some(Difference { index, place }));
        }
    }
    Ok(None)
}

/// Compares a run, by the order of the entries of its logs, with another run of the program.
pub fn compare(
    alloc: Global,
    order: &[Entry],
    lists: &Lists,
    counts: &Counts,
    others: &Lists,
    other_counts: &Counts,
) -> Result<Comparison, AllocError>
    ensures tells { IfOk result (Tells (map entry_shape order.now)
        (lists_shape lists.now) (counts_shape counts.now)
        (lists_shape others.now) (counts_shape other_counts.now)) }
{
    if are_same_lists(lists, others) && are_same_counts(counts, other_counts) {
        return Ok(Comparison::Same);
    }
    match first_difference(alloc, order, &others.entries)? {
        Some(difference) => Ok(Comparison::Differs(difference)),
        None => Ok(Comparison::Further),
    }
}

//! Edges that become owed, found by their future and their first activity.

ghost use Rattle.std.specs.Prelude.{◌≡◌, ◌≤◌, ℕ, length};
ghost use Rattle.core_sets.specs.Lanes.{AreLanes, KeepsLanes, count};
ghost use Rattle.core_sets.specs.Marks.{MarkedIf, is_marked};
ghost use Rattle.future_update.specs.Passings.{ArePassings, IsLeft, IsSound, MarkedLast};
ghost use Rattle.future_update.specs.Records.{AreRecords, answers_of, owes as is_owed};

use crate::numbered::{Future, Passing};
use crate::passings::Passings;
use crate::records::Records;
use core_sets::Lanes;

/// Marks the edges of a future that are owed and begin at activities numbered from `first` to `last`.
/// All other edges have right marks before.
pub fn settle(
    records: &Records,
    passings: &Passings,
    owed: &mut Lanes,
    future: Future,
    first: u32,
    last: u32,
)
    requires records { AreRecords records.now }
    requires passings { let r = records.now in
        ArePassings passings.now r.edges.keys (answers_of r) }
    requires lanes { AreLanes owed.old }
    requires room { length records.now.edges.keys ≤ count owed.old }
    requires forward { first ≤ last }
    requires sound { IsSound records.now owed.old.marks }
    requires left { IsLeft records.now owed.old.marks future first last }
    ensures lanes { KeepsLanes owed.old owed.new }
    ensures marked { (p : ℕ) → is_marked owed.new.marks p ≡ is_owed records.now p }
{
    settle_last(records, passings.last, owed);
    if passings.sorted.is_empty() {
        return;
    }
    let low = Passing {
        by: future.by,
        index: future.index,
        from: first,
        place: 0,
    };
    let high = Passing {
        by: future.by,
        index: future.index,
        from: last,
        place: u32::MAX,
    };
    for passing in passings.sorted.range(low..=high) {
        settle_at(records, owed, passing.place as usize);
    }
}

// Marks the place of the last passing, if its edge is owed.
fn settle_last(records: &Records, last: Option<Passing>, owed: &mut Lanes)
    requires records { AreRecords records.now }
    requires lanes { AreLanes owed.old }
    requires room { length records.now.edges.keys ≤ count owed.old }
    ensures lanes { KeepsLanes owed.old owed.new }
    ensures marked { MarkedLast records.now last owed.old.marks owed.new.marks }
{
    if let Some(last) = last {
        settle_at(records, owed, last.place as usize);
    }
}

/// Marks a place if its edge is owed.
pub fn settle_at(records: &Records, owed: &mut Lanes, place: usize)
    requires records { AreRecords records.now }
    requires lanes { AreLanes owed.old }
    requires room { length records.now.edges.keys ≤ count owed.old }
    ensures lanes { KeepsLanes owed.old owed.new }
    ensures marked { MarkedIf (is_owed records.now place) place owed.old.marks owed.new.marks }
{
    if records.owes(place) {
        owed.set(place, true);
    }
}

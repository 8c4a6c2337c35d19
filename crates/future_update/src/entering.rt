//! One more edge: all room first, then the edge with its answer.

ghost use Rattle.std.specs.Prelude.{
  ◌≡◌,
  ◌+◌,
  ◌<◌,
  ◌≤◌,
  ◌++◌,
  ◌∷◌,
  [],
  ℕ,
  None,
  OnErr,
  OnOk,
  false,
  length,
  true,
};
ghost use Rattle.asp_model.specs.Shapes.{choice_shape};
ghost use Rattle.def_journals.specs.Edges.{Passes, after_event, has_edge};
ghost use Rattle.core_sets.specs.Lanes.{
  AreLanes,
  IsGrown,
  KeepsLanes,
  SameClosed,
  count,
  lane_count,
};
ghost use Rattle.core_sets.specs.Marks.{SameMarks, is_marked};
ghost use Rattle.future_update.specs.Names.{edge_of};
ghost use Rattle.future_update.specs.declared.numbered.Passing.{Passing};
ghost use Rattle.future_update.specs.Numbered.{IsPassed};
ghost use Rattle.future_update.specs.Passings.{ArePassings, is_kept};
ghost use Rattle.future_update.specs.Records.{
  AreRecords,
  HasRoom,
  answers_of,
  names_of,
  owes,
  shape_of,
};

use crate::numbered::{Edge, Passing};
use crate::passings::{Passings, is_sending};
use crate::records::Records;
use crate::settling::settle_at;
use asp_model::Choice;
use core_sets::Lanes;
use std::alloc::AllocError;

/// Makes room for an edge: in the records, in the list of what was passed, and a place in the lane of
/// its receiver. After it `enter` allocates nothing.
pub fn make_room(
    records: &mut Records,
    passings: &mut Passings,
    owed: &mut Lanes,
    edge: Edge,
) -> Result<(), AllocError>
    requires records { AreRecords records.old }
    requires lanes { AreLanes owed.old }
    ensures records { AreRecords records.new }
    ensures names { names_of records.new ≡ names_of records.old }
    ensures edges { records.new.edges.keys ≡ records.old.edges.keys }
    ensures shape { shape_of records.new ≡ shape_of records.old }
    ensures answers { answers_of records.new ≡ answers_of records.old }
    ensures has_room { OnOk result (HasRoom records.new) }
    ensures passings { (k : Passing) → is_kept passings.old k ≡ true
        → is_kept passings.new k ≡ true }
    ensures ready { OnOk result (passings.new.last ≡ None) }
    ensures lanes { AreLanes owed.new }
    ensures marks { SameMarks owed.old.marks owed.new.marks }
    ensures closed { SameClosed owed.old owed.new }
    ensures more { lane_count owed.old ≤ lane_count owed.new }
    ensures place { OnOk result (IsGrown edge.to owed.old owed.new) }
    ensures err { OnErr result (owed.new.spots.items ≡ owed.old.spots.items) }
{
    records.reserve()?;
    passings.reserve()?;
    make_place(owed, edge.to)
}

// One more place, in a lane that is there with this call if it was not before.
fn make_place(owed: &mut Lanes, lane: u32) -> Result<(), AllocError>
    requires lanes { AreLanes owed.old }
    ensures lanes { AreLanes owed.new }
    ensures marks { SameMarks owed.old.marks owed.new.marks }
    ensures closed { SameClosed owed.old owed.new }
    ensures more { lane_count owed.old ≤ lane_count owed.new }
    ensures place { OnOk result (IsGrown lane owed.old owed.new) }
    ensures err { OnErr result (owed.new.spots.items ≡ owed.old.spots.items) }
{
    owed.make_lane(lane)?;
    owed.add(lane)
}

/// Enters an edge with its answer. Nothing is ever owed along one whose answer leaves the value.
pub fn enter(
    records: &mut Records,
    passings: &mut Passings,
    owed: &mut Lanes,
    edge: Edge,
    answer: Choice,
)
    requires records { AreRecords records.old }
    requires passings { let r = records.old in
        ArePassings passings.old r.edges.keys (answers_of r) }
    requires ready { passings.old.last ≡ None }
    requires has_room { HasRoom records.old }
    requires passed { IsPassed (names_of records.old) edge }
    requires new { let x = edge_of (names_of records.old) edge in
        has_edge x (shape_of records.old).edges ≡ false }
    requires lanes { AreLanes owed.old }
    requires room { length records.old.edges.keys < count owed.old }
    requires owed { (p : ℕ) → is_marked owed.old.marks p ≡ owes records.old p }
    ensures records { AreRecords records.new }
    ensures names { names_of records.new ≡ names_of records.old }
    ensures edges { records.new.edges.keys ≡ records.old.edges.keys ++ edge ∷ [] }
    ensures shape { let event = Passes (edge_of (names_of records.old) edge) in
        shape_of records.new ≡ after_event event (shape_of records.old) }
    ensures answers { answers_of records.new ≡ answers_of records.old ++ choice_shape answer ∷ [] }
    ensures passings { let r = records.new in
        ArePassings passings.new r.edges.keys (answers_of r) }
    ensures lanes { KeepsLanes owed.old owed.new }
    ensures owed { (p : ℕ) → is_marked owed.new.marks p ≡ owes records.new p }
{
    let place = records.edges.len();
    records.enter(edge, answer);
    if !is_sending(answer) {
        return;
    }
    passings.last = Some(Passing {
        by: edge.future.by,
        index: edge.future.index,
        from: edge.from,
        place: place as u32,
    });
    settle_at(records, owed, place);
}

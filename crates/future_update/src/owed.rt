//! Which edges are owed, and which pairs of activities are no edge.

ghost use Rattle.std.specs.Prelude.{◌≡◌, ◌≢◌, ◌<◌, false, length};
ghost use Rattle.asp_model.specs.Shapes.{choice_shape};
ghost use Rattle.def_journals.specs.Edges.{
  is_chosen as is_sent_by,
  is_no_edge as is_none,
  is_owed as is_owed_by,
};
ghost use Rattle.future_update.specs.Names.{IsKnownEdge, edge_of};
ghost use Rattle.future_update.specs.Numbered.{edge_at};
ghost use Rattle.future_update.specs.Records.{AreRecords, names_of, owes as is_owed, shape_of};

use crate::numbered::Edge;
use crate::records::Records;
use asp_model::Choice;
use update_policy::{is_no_edge as makes_no_edge, is_sent};

impl Records {
    /// Whether an edge is kept, or has equal ends.
    pub fn is_no_edge(&self, edge: Edge) -> bool
        requires records { AreRecords self.now }
        requires known { IsKnownEdge (names_of self.now) edge }
        ensures edge { let x = edge_of (names_of self.now) edge in
            result ≡ is_none x (shape_of self.now).edges }
        ensures apart { result ≡ false → edge.from ≢ edge.to }
    {
        makes_no_edge(edge.from == edge.to, self.has_edge(edge))
    }

    /// Whether the edge of a place is owed.
    pub fn owes(&self, place: usize) -> bool
        requires records { AreRecords self.now }
        ensures owed { result ≡ is_owed self.now place }
    {
        place < self.edges.len() && self.owes_kept(place)
    }

    // Whether the edge of a place is owed, where there is one.
    fn owes_kept(&self, place: usize) -> bool
        requires records { AreRecords self.now }
        requires within { place < length self.now.edges.keys }
        ensures owed { result ≡ is_owed self.now place }
    {
        self.owes_with(place, self.answers[place])
    }

    // Whether the edge of a place is owed, if this is its answer.
    fn owes_with(&self, place: usize, answer: Choice) -> bool
        requires records { AreRecords self.now }
        requires within { place < length self.now.edges.keys }
        ensures owed { let x = edge_of (names_of self.now) (edge_at self.now.edges.keys place) in
            result ≡ is_owed_by (shape_of self.now) (choice_shape answer) x }
    {
        let edge = self.edge(place);
        !self.was_delivered(place) && self.is_filled(edge.future) && self.is_chosen(answer, edge)
    }

    // Whether the answer for an edge sends the value now.
    fn is_chosen(&self, answer: Choice, edge: Edge) -> bool
        requires records { AreRecords self.now }
        requires known { IsKnownEdge (names_of self.now) edge }
        ensures chosen { let x = edge_of (names_of self.now) edge in
            result ≡ is_sent_by (choice_shape answer) (shape_of self.now) x }
    {
        let can_hand_on = matches!(answer, Choice::Forward) && self.has_value(edge);
        is_sent(answer, can_hand_on)
    }
}

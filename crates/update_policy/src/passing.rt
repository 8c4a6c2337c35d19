//! What a policy's answer comes to, and which passings of a future nobody is asked about.

ghost use Rattle.std.specs.Prelude.{◌≡◌, List, false};
ghost use Rattle.asp_model.specs.History.{Forward};
ghost use Rattle.asp_model.specs.Names.{same_name};
ghost use Rattle.asp_model.specs.Shapes.{choice_shape};
ghost use Rattle.def_journals.specs.Edges.{
  EdgeShape,
  HoldersShape,
  has_edge,
  has_value as hands_on,
  is_chosen,
  is_no_edge as is_none,
};

use asp_model::Choice;

/// Whether what went from one activity to another makes no edge, by whether the two are one, and
/// whether the edge is kept.
pub fn is_no_edge(is_loop: bool, is_kept: bool) -> bool
    ensures edge { (x : EdgeShape) (edges : List EdgeShape) →
        is_loop ≡ same_name x.from x.to → is_kept ≡ has_edge x edges →
        result ≡ is_none x edges }
    ensures apart { result ≡ false → is_loop ≡ false }
{
    is_loop || is_kept
}

/// Whether the answer for an edge sends the value now. Under Forward that is so once the first
/// activity can hand the value on.
pub fn is_sent(answer: Choice, can_hand_on: bool) -> bool
    ensures sent { (h : HoldersShape) (x : EdgeShape) →
        (choice_shape answer ≡ Forward → can_hand_on ≡ hands_on h x) →
        result ≡ is_chosen (choice_shape answer) h x }
{
    match answer {
        Choice::FromHome => true,
        Choice::Forward => can_hand_on,
        Choice::Leave => false,
    }
}

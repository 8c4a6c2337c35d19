//! Which arrivals have one of some labels.

ghost use Rattle.std.specs.Prelude.{◌≡◌, ◌≤◌, drop, length, map, IfNone, IfSome, []};
ghost use Rattle.asp_model.specs.Term.{has_text};
ghost use Rattle.determinacy.specs.Walks.{IsNext, chosen, label_text};

use asp_model::{Arrival, Label};

/// Whether a label is one of these.
pub fn is_among(label: &Label, labels: &[Label]) -> bool
    ensures { result ≡ has_text label.now.text (map label_text labels.now) }
{
    for place in 0..labels.len() {
        if *label == labels[place] {
            return true;
        }
    }
    false
}

/// The place of the first arrival from a place on that has one of the labels.
pub fn next_among(arrivals: &[Arrival], from: usize, labels: &[Label]) -> Option<usize>
    requires within { from ≤ length arrivals.now }
    ensures found { IfSome result (IsNext (map label_text labels.now) arrivals.now from) }
    ensures none { IfNone result
        (chosen (map label_text labels.now) (drop from arrivals.now) ≡ []) }
{
    for place in from..arrivals.len() {
        if is_among(&arrivals[place].label, labels) {
            return Some(place);
        }
    }
    None
}

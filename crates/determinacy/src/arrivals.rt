//! Whether services find the same on two sides.

ghost use Rattle.std.specs.Prelude.{◌≡◌, map};
ghost use Rattle.std.specs.List.{list_all};
ghost use Rattle.asp_model.specs.Shapes.{arrival_shape, labels_shape};
ghost use Rattle.law_services.specs.Told.{
  finds_same as finds_same_by,
  same_arrival as same_shape,
};
ghost use Rattle.determinacy.specs.Walks.{label_text};

use crate::labels::{is_among, next_among};
use asp_model::{Arrival, Label, ServiceEntry};

fn same_arrival(arrival: &Arrival, other: &Arrival) -> bool
    ensures { result ≡ same_shape (arrival_shape arrival.now) (arrival_shape other.now) }
{
    arrival.sender == other.sender && arrival.label == other.label
}

// Each arrival with one of the labels has the next such one of the others beside it.
fn finds_same(arrivals: &[Arrival], others: &[Arrival], labels: &[Label]) -> bool
    ensures { let texts = map label_text labels.now in
        let ours = map arrival_shape arrivals.now in
        result ≡ finds_same_by ours (map arrival_shape others.now) texts }
{
    let mut from = 0;
    for place in 0..arrivals.len() {
        let arrival = &arrivals[place];
        if is_among(&arrival.label, labels) {
            let Some(other) = next_among(others, from, labels) else {
                return false;
            };
            if !same_arrival(arrival, &others[other]) {
                return false;
            }
            from = other + 1;
        }
    }
    match next_among(others, from, labels) {
        Some(_) => false,
        None => true,
    }
}

/// Whether each service of an activity finds the same in its arrivals and in others.
pub fn all_find_same(entry: &ServiceEntry, others: &[Arrival]) -> bool
    ensures { let ours = map arrival_shape entry.now.arrivals.items.items in
        let sets = map labels_shape entry.now.sets.items.items in
        result ≡ list_all (finds_same_by ours (map arrival_shape others.now)) sets }
{
    for place in 0..entry.sets.items.len() {
        if !finds_same(
            &entry.arrivals.items,
            others,
            &entry.sets.items[place].items,
        ) {
            return false;
        }
    }
    true
}

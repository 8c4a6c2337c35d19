//! The numbers of entries, as their types have them. Nothing is computed: the prover takes the ranges
//! of numbers from where they are read.

ghost use Rattle.std.specs.Prelude.{◌≡◌, ◌^◌, nat_lt, true};
ghost use Rattle.asp_model.specs.History.{Delivered};
ghost use Rattle.asp_model.specs.Shapes.{delivery_shape, entry_shape};
ghost use Rattle.trace_text.specs.Traces.{has_numbers};

use asp_model::{Delivery, Entry, Place};

/// An entry's numbers fit their types.
pub fn fits(entry: &Entry)
    ensures numbers { has_numbers (entry_shape entry.now) ≡ true }
{
    match entry {
        Entry::Lent(number) => number_fits(*number),
        Entry::Committed {
            number,
            reductions: _,
        } => number_fits(*number),
        Entry::Delivered(delivery) => delivery_fits(delivery),
    }
}

fn delivery_fits(delivery: &Delivery)
    ensures { has_numbers (Delivered (delivery_shape delivery.now)) ≡ true }
{
    match delivery {
        Delivery::Edge { .. } => {}
        Delivery::Need { loc, .. } => place_fits(*loc),
    }
}

fn number_fits(number: u32)
    ensures { nat_lt number (2 ^ 32) ≡ true }
{
    let _number = number;
}

fn place_fits(place: Place)
    ensures { nat_lt place (2 ^ 128) ≡ true }
{
    let _place = place;
}

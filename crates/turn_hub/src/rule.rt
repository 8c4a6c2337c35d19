//! The rule of a hub's table, and what each step on the table tells its seat.

use crate::lends::Lends;
use crate::view::{Opening, View};
use atomic_table::{Join, Play, Shared, Split, TableRule};

/// The rule: one value, at home or with the seat that has the turn.
pub struct Sharing;

impl<H: Lends> TableRule<Option<H>, View<H>, Opening<H>> for Sharing {
    ghost use Rattle.turn_hub.specs.Sharing.{IsShared, first_view};

    ghost holds = { λ key s. IsShared H.history H.out H.keeps key.first.value key.seats s };

    ghost first = { λ key. first_view H.history H.out key };
}

/// The table as its seats share it.
pub(crate) type Top<H> = Shared<Option<H>, View<H>, Opening<H>, Sharing>;

// A try to get the turn.
pub(crate) struct Try;

impl<H: Lends> Play<Option<H>, View<H>> for Try {
    ghost use Rattle.turn_hub.specs.Sharing.{tried};

    ghost then = { tried H.history H.out H.keeps };
}

// The turn is given up, and the value with it.
pub(crate) struct Release;

impl<H: Lends> Play<Option<H>, View<H>> for Release {
    ghost use Rattle.turn_hub.specs.Sharing.{released};

    ghost then = { released H.history H.out };
}

// A seat gives its second number to a new one.
pub(crate) struct Cut;

impl<H> Split<View<H>> for Cut {
    ghost use Rattle.turn_hub.specs.Sharing.{kept_view, cut_view};

    ghost left = { kept_view };

    ghost right = { cut_view };
}

// A seat takes in another, which is spent.
pub(crate) struct Meet;

impl<H> Join<View<H>> for Meet {
    ghost use Rattle.turn_hub.specs.Sharing.{joined_view, spent_view};

    ghost both = { joined_view };

    ghost spent = { spent_view };
}

//! The hub.

ghost use Rattle.std.specs.Prelude.{◌<◌};
ghost use Rattle.turn_hub.specs.Numbers.{IsSized};

use crate::calls::Calls;
use crate::lends::Lends;
use crate::rule::Sharing;
use crate::view::{Opening, View};
use atomic_table::Table;
use std::alloc::Global;

mod ends;
mod turning;

pub use ends::Full;

/// One word, which says who has the turn, and one slot, where the value lies while nobody has it.
pub(crate) type Board<H> = Table<Option<H>, View<H>, Opening<H>, Sharing, Global>;

/// Shares one value among seats: who has the turn has the value.
#[derive(Drop)]
pub struct Hub<H: Lends> {
    pub(crate) table: Board<H>,
    pub(crate) calls: Calls,
    ghost sized: { IsSized table.shared.table_id },
    ghost some_seat: { 0 < table.shared.key.seats },
}

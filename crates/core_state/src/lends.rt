//! Who is lent.

ghost use Rattle.std.specs.Prelude.{◌≡◌, ◌&&◌, nat_lt};
ghost use Rattle.core_ranks.specs.Numbers.{has_number};

use core_ranks::Ranks;

/// Whether an activity can be lent: it can step (one that is out cannot), and some of the budget is
/// left.
pub fn is_lent(ranks: &Ranks, left: u64, number: u32) -> bool
    ensures lent { result ≡ (has_number number ranks.now.going.keys && nat_lt 0 left) }
{
    ranks.goes(number) && left > 0
}

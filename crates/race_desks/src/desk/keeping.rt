//! How much of the budget is kept for leases that go on beyond their grants.

ghost use Rattle.std.specs.Prelude.{◌≡◌, ◌*◌, ◌+◌, ◌<◌, ◌≤◌, ◌⊎◌, ◌^◌, true};
ghost use Rattle.asp_model.specs.declared.limits.TheConstants.{MOST_GRANTED};

use asp_model::MOST_GRANTED;

/// The most grants that may follow a lease's own.
const MOST_ROUNDS: u64 = 15;

/// A worker gets so many grants at once only where the budget has this many times as many for each.
const AMPLE: u64 = 64;

/// Whether a lease leaves what is kept for others.
pub(crate) fn leaves_reserve(left: u64, reserved: u64) -> bool
    ensures leaves { result ≡ true → (reserved ≡ 0) ⊎ ((reserved + 1) * MOST_GRANTED ≤ left) }
{
    reserved == 0 || reserved < left / MOST_GRANTED
}

/// How many grants may follow that of a lease: few where little is left for so many workers, and no
/// more than is left beside what is kept for others.
pub(crate) fn further_grants(left: u64, reserved: u64, workers: u32) -> u32
    ensures kept { reserved * MOST_GRANTED ≤ left → (reserved + result) * MOST_GRANTED ≤ left }
    ensures small { reserved + result < 2 ^ 64 }
{
    let grants = left / MOST_GRANTED;
    let free = grants.saturating_sub(reserved);
    let share = grants / (AMPLE * workers.max(1) as u64);
    share.saturating_sub(1).min(MOST_ROUNDS).min(free) as u32
}

//! Logs and counts: those that an outcome shows, and whether a replay takes them.

ghost use Rattle.std.specs.Prelude.{◌≡◌, ◌-◌, ◌^◌, ◌↔◌, IfOk, IsTrue, map, min};
ghost use Rattle.std.specs.FinMap.{is_sorted};
ghost use Rattle.asp_model.specs.Names.{name_cmp};
ghost use Rattle.asp_model.specs.Outcome.{counts_in as counts_shown, lists_in as lists_shown};
ghost use Rattle.asp_model.specs.Replay.{total};
ghost use Rattle.asp_model.specs.Shapes.{counts_shape, lists_shape, outcome_shape};
ghost use Rattle.law_schedules.specs.Divergence.{AreInOrder};
ghost use Rattle.replay_one.specs.Listed.{AreReplayable};

use asp_model::{ActivityName, Counts, Lists, MOST_REDUCTIONS, Outcome, Reception};
use replay_parts::copies_of;
use std::alloc::{AllocError, Global};

/// The logs that an outcome shows.
pub fn lists_in(alloc: Global, outcome: &Outcome) -> Result<Lists, AllocError>
    ensures lists { IfOk result (λ l. lists_shape l ≡ lists_shown (outcome_shape outcome.now)) }
{
    let mut entries = Vec::new(alloc);
    for activity in &outcome.activities {
        let log = copies_of(alloc, &activity.senders)?;
        entries.push((activity.name.copy(alloc)?, log))?;
    }
    Ok(Lists { entries })
}

/// The counts that an outcome shows.
pub fn counts_in(alloc: Global, outcome: &Outcome) -> Result<Counts, AllocError>
    ensures counts { IfOk result (λ c. counts_shape c ≡ counts_shown (outcome_shape outcome.now)) }
{
    let mut entries = Vec::new(alloc);
    for activity in &outcome.activities {
        entries.push((activity.name.copy(alloc)?, activity.count))?;
    }
    Ok(Counts { entries })
}

fn have_same_names(lists: &[(ActivityName, Vec<Reception>)], counts: &[(ActivityName, u64)]) -> bool
    ensures { IsTrue result ↔ (map (λ x. x.0) lists.now ≡ map (λ x. x.0) counts.now) }
{
    if lists.len() != counts.len() {
        return false;
    }
    for place in 0..lists.len() {
        if lists[place].0 != counts[place].0 {
            return false;
        }
    }
    true
}

fn ascend(lists: &[(ActivityName, Vec<Reception>)]) -> bool
    ensures { result ≡ is_sorted name_cmp lists.now }
{
    for place in 1..lists.len() {
        if lists[place - 1].0 >= lists[place].0 {
            return false;
        }
    }
    true
}

fn are_in_order(lists: &Lists, counts: &Counts) -> bool
    ensures { IsTrue result ↔ AreInOrder (lists_shape lists.now) (counts_shape counts.now) }
{
    have_same_names(&lists.entries, &counts.entries) && ascend(&lists.entries)
}

// The sum of the counts, or the last number of 64 bits where it is greater.
fn total_of(counts: &[(ActivityName, u64)]) -> u64
    ensures { result ≡ min (total counts.now) (2 ^ 64 - 1) }
{
    let mut sum: u64 = 0;
    for count in counts {
        sum = sum.saturating_add(count.1);
    }
    sum
}

/// Whether logs and counts have the same names in strictly ascending order, and the counts sum to
/// no more reductions than a run may take, 10,000,000.
pub fn are_replayable(lists: &Lists, counts: &Counts) -> bool
    ensures replayable { let all = lists_shape lists.now in
        IsTrue result ↔ AreReplayable all (counts_shape counts.now) }
{
    are_in_order(lists, counts) && total_of(&counts.entries) <= MOST_REDUCTIONS
}

//! Logs that are cut or lengthened, and counts.

ghost use Rattle.std.specs.Prelude.{◌≡◌, ◌≤◌, IfOk, map, take};
ghost use Rattle.asp_model.specs.declared.limits.TheConstants.{MOST_REDUCTIONS};
ghost use Rattle.asp_model.specs.Replay.{total};
ghost use Rattle.asp_model.specs.Shapes.{counts_shape, lists_shape, reception_shape};
ghost use Rattle.replay_offers.specs.Logs.{each_cut, each_entered, even, log_cut, log_entered};

use asp_model::{ActivityName, Counts, Lists, Reception};
use outcome_search::{copy_log, copy_reception};
use std::alloc::{AllocError, Global};

/// At most so many entries of a log.
fn front(log: &[Reception], place: usize) -> &[Reception]
    ensures { map reception_shape result.now ≡ take place (map reception_shape log.now) }
{
    if place < log.len() {
        &log[..place]
    } else {
        log
    }
}

/// A log, of which so many entries are kept if it is this activity's.
fn cut_log<'a>(
    entry: &'a (ActivityName, Vec<Reception>),
    to: &ActivityName,
    place: usize,
) -> &'a [Reception]
    ensures { map reception_shape result.now
        ≡ log_cut to.now place entry.now.0 (map reception_shape entry.now.1.items) }
{
    if *to == entry.0 {
        front(&entry.1, place)
    } else {
        &entry.1
    }
}

/// The logs, where that of one activity ends after so many entries.
pub fn cut_at(
    alloc: Global,
    lists: &Lists,
    to: &ActivityName,
    place: usize,
) -> Result<Lists, AllocError>
    ensures cut { IfOk result
        (λ l. lists_shape l ≡ each_cut to.now place (lists_shape lists.now)) }
{
    let mut entries = Vec::new(alloc);
    for entry in &lists.entries {
        let log = copy_log(alloc, cut_log(entry, to, place))?;
        entries.push((entry.0.copy(alloc)?, log))?;
    }
    Ok(Lists { entries })
}

/// A copy of a log, where it is this activity's with an entry more.
fn entered_log(
    alloc: Global,
    entry: &(ActivityName, Vec<Reception>),
    to: &ActivityName,
    more: &Reception,
) -> Result<Vec<Reception>, AllocError>
    ensures { let log = map reception_shape entry.now.1.items in
        IfOk result (λ v. map reception_shape v.items
        ≡ log_entered to.now (reception_shape more.now) entry.now.0 log) }
{
    let mut log = copy_log(alloc, &entry.1)?;
    if *to == entry.0 {
        log.push(copy_reception(alloc, more)?)?;
    }
    Ok(log)
}

/// The logs, where that of one activity has an entry more.
pub fn with_entry(
    alloc: Global,
    lists: &Lists,
    to: &ActivityName,
    more: &Reception,
) -> Result<Lists, AllocError>
    ensures entered { IfOk result (λ l. lists_shape l
        ≡ each_entered to.now (reception_shape more.now) (lists_shape lists.now)) }
{
    let mut entries = Vec::new(alloc);
    for entry in &lists.entries {
        let log = entered_log(alloc, entry, to, more)?;
        entries.push((entry.0.copy(alloc)?, log))?;
    }
    Ok(Lists { entries })
}

/// The same count for each activity that has a log.
pub fn even_counts(alloc: Global, lists: &Lists, count: u64) -> Result<Counts, AllocError>
    ensures even { IfOk result (λ c. c.entries.items ≡ even count lists.now.entries.items) }
{
    let mut entries = Vec::new(alloc);
    for entry in &lists.entries {
        entries.push((entry.0.copy(alloc)?, count))?;
    }
    Ok(Counts { entries })
}

fn sum_of(counts: &[(ActivityName, u64)]) -> u64
    requires within { total counts.now ≤ MOST_REDUCTIONS }
    ensures { result ≡ total counts.now }
{
    let mut sum = 0;
    for count in counts {
        sum += count.1;
    }
    sum
}

/// The sum of the counts.
pub fn total_of(counts: &Counts) -> u64
    requires within { total (counts_shape counts.now) ≤ MOST_REDUCTIONS }
    ensures total { result ≡ total (counts_shape counts.now) }
{
    sum_of(&counts.entries)
}

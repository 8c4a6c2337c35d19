//! What an end offers if one of its logs by classes is cut.

ghost use Rattle.std.specs.Prelude.{◌≡◌, Some, ℕ, IfOk, IsTrue};
ghost use Rattle.asp_model.specs.Configuration.{From};
ghost use Rattle.asp_model.specs.Names.{Name};
ghost use Rattle.law_classes.specs.Families.{IsInside, cut_logs};
ghost use Rattle.law_classes.specs.Runs.{with_entry};
ghost use Rattle.class_search.specs.Found.{HasLogs};
ghost use Rattle.class_search.specs.Logs.{logs_of};
ghost use Rattle.end_search.specs.Found.{AreAll};
ghost use Rattle.replay_classes.specs.Cuts.{IsNotNext};
ghost use Rattle.replay_classes.specs.Sendings.{IsAmong, entry_of, logs_from};

use crate::sendings::{copies_of, copy_of, is_to, rows_of};
use class_search::{ClassLog, Offer, Sending, begin_with, is_from, log_at};
use std::alloc::{AllocError, Global};

/// Whether logs lie within those of an end, one of which is cut at a place.
pub fn is_inside(logs: &[ClassLog], cut: &ClassLog, place: usize, rows: &[ClassLog]) -> bool
    ensures inside { IsTrue result → IsInside (logs_of rows.now)
        (cut_logs (logs_of logs.now) cut.now.to cut.now.class place) }
{
    begin_with(logs, rows) && place >= log_at(rows, &cut.to, cut.class).len()
}

// What is sent is not next in the logs that are cut so.
fn is_not_next(
    logs: &[ClassLog],
    cut: &ClassLog,
    place: usize,
    rows: &[ClassLog],
    next: &Sending,
) -> bool
    ensures not { let lists = cut_logs (logs_of logs.now) cut.now.to cut.now.class place in
        IsTrue result → IsNotNext lists (logs_of rows.now) next.now }
{
    let done = log_at(rows, &next.to, next.class).len();
    if is_to(next, &cut.to, cut.class) && done >= place {
        return true;
    }
    let log = log_at(logs, &next.to, next.class);
    if done >= log.len() {
        return true;
    }
    !is_from(&log[done], &next.by)
}

/// Whether nothing of what is sent is next in the logs that are cut so.
pub fn none_is_next(
    logs: &[ClassLog],
    cut: &ClassLog,
    place: usize,
    rows: &[ClassLog],
    nexts: &[Sending],
) -> bool
    ensures none { let lists = cut_logs (logs_of logs.now) cut.now.to cut.now.class place in
        IsTrue result → AreAll (IsNotNext lists (logs_of rows.now)) nexts.now }
{
    for next in nexts {
        if !is_not_next(logs, cut, place, rows, next) {
            return false;
        }
    }
    true
}

// What was sent, and this.
fn offer_of(alloc: Global, sendings: &[Sending], next: &Sending) -> Result<Offer, AllocError>
    ensures logs { (q : Name) (κ : ℕ) → IfOk result (λ o. logs_of o.logs.items q κ
        ≡ with_entry (entry_of next.now) (logs_from sendings.now) q κ) }
{
    let mut all = copies_of(alloc, sendings)?;
    all.push(copy_of(alloc, next)?)?;
    Ok(Offer {
        logs: rows_of(alloc, &all)?,
        sendings: all,
    })
}

/// What was sent, with each of these in turn that goes to the log.
pub fn offers_of(
    alloc: Global,
    sendings: &[Sending],
    nexts: &[Sending],
    cut: &ClassLog,
) -> Result<Vec<Offer>, AllocError>
    ensures all { (next : Name) → let entry = Some (cut.now.to, cut.now.class, From next) in
        IsAmong nexts.now entry →
        IfOk result (λ v. HasLogs v.items (with_entry entry (logs_from sendings.now))) }
{
    let mut offers = Vec::new(alloc);
    for next in nexts {
        if is_to(next, &cut.to, cut.class) {
            offers.push(offer_of(alloc, sendings, next)?)?;
        }
    }
    Ok(offers)
}

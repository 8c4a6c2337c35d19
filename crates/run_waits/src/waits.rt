//! For whom each activity waits, by numbers.

ghost use Rattle.std.specs.Prelude.{◌≡◌, ◌<◌, IfNone, IfOk, IfSome, length};
ghost use Rattle.asp_model.specs.Configuration.{Configuration};
ghost use Rattle.asp_model.specs.Intent.{Awaits};
ghost use Rattle.asp_model.specs.Names.{Name};
ghost use Rattle.asp_model.specs.Shapes.{future_shape, status_shape};
ghost use Rattle.asp_model.specs.Status.{status_of};
ghost use Rattle.law_waits.specs.Waits.{waited};
ghost use Rattle.wait_circles.specs.Ways.{AreWithin};
ghost use Rattle.wait_circles.specs.Whys.{AreWaits, IsNumbered, names_of};
ghost use Rattle.path_equal.specs.Views.{IsNamedAt, IsNowhere, NamesAscend};
ghost use Rattle.run_waits.specs.Explains.{IsEndTold};

use crate::receipts::Receipts;
use asp_model::{ActivityName, ActivityReport, FutureName, Status};
use future_table::FutureTable;
use std::alloc::{AllocError, Global};

// The number of the activity of a name, where the names ascend.
fn number_of(activities: &[ActivityReport], name: &ActivityName) -> Option<usize>
    ensures found { IfSome result (IsNamedAt activities.now name.now) }
    ensures none { NamesAscend activities.now → IfNone result (IsNowhere activities.now name.now) }
{
    match activities.binary_search_by(|activity| activity.name.cmp(name)) {
        Ok(number) => Some(number),
        Err(_) => None,
    }
}

// Who received the request of an awaited future that has no value.
fn receiver(
    activities: &[ActivityReport],
    futures: &FutureTable,
    receipts: &Receipts,
    future: &FutureName,
) -> Option<usize>
    ensures within { IfSome result (λ j. j < length activities.now) }
    ensures waits { (c : Configuration) (n : Name) →
        IsEndTold c activities.now futures.now receipts.now →
        status_of c n ≡ Awaits (future_shape future.now) →
        IsNumbered (names_of activities.now) result (waited c n) }
{
    match futures.value(future) {
        Some(_) => None,
        None => match receipts.target(future) {
            Some(target) => number_of(activities, &target.to),
            None => None,
        },
    }
}

// For whom one with this status waits.
fn wait_of(
    activities: &[ActivityReport],
    futures: &FutureTable,
    receipts: &Receipts,
    status: &Status,
) -> Option<usize>
    ensures within { IfSome result (λ j. j < length activities.now) }
    ensures waits { (c : Configuration) (n : Name) →
        IsEndTold c activities.now futures.now receipts.now →
        status_of c n ≡ status_shape status.now →
        IsNumbered (names_of activities.now) result (waited c n) }
{
    match status {
        Status::Awaits(future) => receiver(activities, futures, receipts, future),
        Status::Done => None,
        Status::Serving => None,
        Status::Running => None,
        Status::Faulted(_) => None,
    }
}

/// For whom each waits.
pub fn waits_in(
    alloc: Global,
    activities: &[ActivityReport],
    futures: &FutureTable,
    receipts: &Receipts,
) -> Result<Vec<Option<usize>>, AllocError>
    ensures size { IfOk result (λ v. length v.items ≡ length activities.now) }
    ensures within { IfOk result (λ v. AreWithin v.items) }
    ensures waits { (c : Configuration) → IsEndTold c activities.now futures.now receipts.now →
        IfOk result (λ v. AreWaits c v.items (names_of activities.now)) }
{
    let mut next = Vec::with_capacity(alloc, activities.len())?;
    for activity in activities {
        next.push(wait_of(activities, futures, receipts, &activity.status))?;
    }
    Ok(next)
}

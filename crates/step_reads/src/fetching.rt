//! Strict operands that are futures: their values are unpacked at their places.

ghost use Rattle.std.specs.Prelude.{◌≡◌, IfOk};
ghost use Rattle.asp_model.specs.Chase.{chase};
ghost use Rattle.asp_model.specs.Contraction.{members_of};
ghost use Rattle.asp_model.specs.Configuration.{Activity as ActivityShape};
ghost use Rattle.asp_model.specs.Intent.{operand_ready, operands_ready};
ghost use Rattle.asp_model.specs.Store.{cell as cell_in};
ghost use Rattle.activity_step.specs.Standings.{code_of};
ghost use Rattle.activity_step.specs.Activities.{StandsFor};
ghost use Rattle.future_table.specs.Values.{AreOfCode, values_of};
ghost use Rattle.step_reads.specs.Strict.{IsFetched, strict_ready};
ghost use Rattle.step_reads.specs.Values.{AreClosedValues};

use crate::seen::{Seen, members_of, read};
use crate::strict::Strict;
use activity_step::Activity;
use code_table::Place;
use future_table::{Chase, FutureTable};
use std::alloc::{AllocError, Global};

/// Unpacks the value of the future at a place, if one stands there. The answer is false where it
/// has none.
fn fetch(
    alloc: Global,
    activity: &mut Activity,
    futures: &FutureTable,
    place: Place,
) -> Result<bool, AllocError>
    requires values { AreClosedValues (values_of futures.now) }
    requires code { AreOfCode (code_of activity.old) futures.now }
    ensures fetched { (a : ActivityShape) → StandsFor activity.old a →
        let ready = operand_ready (chase (values_of futures.now)) a.store place
        (cell_in a.store place) in
        IfOk result (IsFetched a ready activity.new) }
    ensures code { code_of activity.new ≡ code_of activity.old }
{
    let Seen::Future(future) = read(activity.code(), activity.store(), place) else {
        return Ok(true);
    };
    let Chase::Value(name) = futures.chase(future) else {
        return Ok(false);
    };
    let Some(value) = futures.value(name) else {
        return Ok(false);
    };
    activity.fill(alloc, place, value)?;
    Ok(true)
}

/// The members of the group at a place; none where there is no group.
fn members_at(alloc: Global, activity: &Activity, place: Place) -> Result<Vec<Place>, AllocError>
    ensures members { (a : ActivityShape) → StandsFor activity.now a →
        IfOk result (λ ns. ns.items ≡ members_of (cell_in a.store place)) }
{
    let members = members_of(read(activity.code(), activity.store(), place)).listed(alloc)?;
    Ok(members)
}

/// Unpacks the values of the futures at these places, in order. The answer is false where one has
/// none.
fn fetch_each(
    alloc: Global,
    activity: &mut Activity,
    futures: &FutureTable,
    places: &[Place],
) -> Result<bool, AllocError>
    requires values { AreClosedValues (values_of futures.now) }
    requires code { AreOfCode (code_of activity.old) futures.now }
    ensures fetched { (a : ActivityShape) → StandsFor activity.old a →
        let ready = operands_ready (chase (values_of futures.now)) a.store places.now in
        IfOk result (IsFetched a ready activity.new) }
    ensures code { code_of activity.new ≡ code_of activity.old }
{
    for place in places {
        if !fetch(alloc, activity, futures, *place)? {
            return Ok(false);
        }
    }
    Ok(true)
}

/// Unpacks the values of the members of the group at a place.
fn fetch_members(
    alloc: Global,
    activity: &mut Activity,
    futures: &FutureTable,
    place: Place,
) -> Result<bool, AllocError>
    requires values { AreClosedValues (values_of futures.now) }
    requires code { AreOfCode (code_of activity.old) futures.now }
    ensures fetched { (a : ActivityShape) → StandsFor activity.old a →
        let ns = members_of (cell_in a.store place) in
        let ready = operands_ready (chase (values_of futures.now)) a.store ns in
        IfOk result (IsFetched a ready activity.new) }
    ensures code { code_of activity.new ≡ code_of activity.old }
{
    let members = members_at(alloc, activity, place)?;
    fetch_each(alloc, activity, futures, &members)
}

/// Unpacks the values of all strict operands that are futures. The answer is false where one has
/// none.
pub fn fetch_all(
    alloc: Global,
    activity: &mut Activity,
    futures: &FutureTable,
    strict: Strict,
) -> Result<bool, AllocError>
    requires values { AreClosedValues (values_of futures.now) }
    requires code { AreOfCode (code_of activity.old) futures.now }
    ensures fetched { (a : ActivityShape) → StandsFor activity.old a →
        let ready = strict_ready (chase (values_of futures.now)) a.store strict in
        IfOk result (IsFetched a ready activity.new) }
    ensures code { code_of activity.new ≡ code_of activity.old }
{
    match strict {
        Strict::Nothing => Ok(true),
        Strict::One(place) => fetch(alloc, activity, futures, place),
        Strict::Two(first, second) => {
            if !fetch(alloc, activity, futures, first)? {
                return Ok(false);
            }
            fetch(alloc, activity, futures, second)
        }
        Strict::Members(place) => {
            if !fetch(alloc, activity, futures, place)? {
                return Ok(false);
            }
            fetch_members(alloc, activity, futures, place)
        }
    }
}

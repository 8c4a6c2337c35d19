//! Parcels, requests and values.

ghost use Rattle.std.specs.Prelude.{◌≡◌, ◌&&◌, map};
ghost use Rattle.std.specs.List.{list_all};
ghost use Rattle.asp_model.specs.Names.{same_name};
ghost use Rattle.asp_model.specs.Shapes.{future_shape};
ghost use Rattle.checkpoint_reading.specs.Cells.{parcel_shape, request_shape, value_shape};
ghost use Rattle.proper_terms.specs.Tests.{Tests};
ghost use Rattle.checkpoint_checks.specs.Maps.{activities_of, homes_of};
ghost use Rattle.checkpoint_checks.specs.Cells.{has_one_root, parcel_fits, request_fits, root_fits, value_fits};

use crate::cells::{check_cells, check_places, size_of};
use crate::world::World;
use asp_model::{ActivityName, FutureName, Place};
use checkpoint_reading::{ParcelText, RequestText};
use proper_terms::Refusal;
use std::alloc::Global;

fn check_root(roots: &[Place]) -> Result<(), Refusal>
    ensures root { Tests (root_fits roots.now) result }
{
    match roots {
        [root] => {
            if *root == 0 {
                Ok(())
            } else {
                Err(Refusal::Unsound)
            }
        }
        _ => Ok(()),
    }
}

fn check_one_root(roots: &[Place]) -> Result<(), Refusal>
    ensures root { Tests (has_one_root roots.now) result }
{
    match roots {
        [root] => {
            if *root == 0 {
                Ok(())
            } else {
                Err(Refusal::Unsound)
            }
        }
        _ => Err(Refusal::Unsound),
    }
}

fn check_parcel(alloc: Global, world: &World<'_>, parcel: &ParcelText) -> Result<(), Refusal>
    ensures fits { let known = parcel_fits (activities_of world.now) (homes_of world.now) in
        Tests (known (parcel_shape parcel.now)) result }
{
    let size = size_of(&parcel.cells);
    check_cells(alloc, world, size, &parcel.cells)?;
    check_places(size, &parcel.roots)?;
    check_root(&parcel.roots)
}

fn check_sender(sender: &ActivityName, future: &FutureName) -> Result<(), Refusal>
    ensures sender { Tests (same_name sender.now future.now.by) result }
{
    if *sender == future.by {
        Ok(())
    } else {
        Err(Refusal::Unsound)
    }
}

fn check_request(
    alloc: Global,
    world: &World<'_>,
    name: &ActivityName,
    request: &RequestText,
) -> Result<(), Refusal>
    ensures fits { let known = request_fits (activities_of world.now) (homes_of world.now) in
        Tests (known name.now (request_shape request.now)) result }
{
    world.check_at(name, &request.future)?;
    check_sender(&request.sender, &request.future)?;
    check_parcel(alloc, world, &request.arguments)
}

/// The pending requests of an activity have it as home, and what they pass is known and proper.
pub fn check_requests(
    alloc: Global,
    world: &World<'_>,
    name: &ActivityName,
    requests: &[RequestText],
) -> Result<(), Refusal>
    ensures fit { let known = request_fits (activities_of world.now) (homes_of world.now) in
        Tests (list_all (known name.now) (map request_shape requests.now)) result }
{
    for request in requests {
        check_request(alloc, world, name, request)?;
    }
    Ok(())
}

fn check_value(
    alloc: Global,
    world: &World<'_>,
    future: &FutureName,
    value: &ParcelText,
) -> Result<(), Refusal>
    ensures fits { let known = value_fits (activities_of world.now) (homes_of world.now) in
        Tests (known (future_shape future.now, parcel_shape value.now)) result }
{
    world.check_future(future)?;
    check_one_root(&value.roots)?;
    check_parcel(alloc, world, value)
}

/// The values have homes, and are known and proper.
pub fn check_values(
    alloc: Global,
    world: &World<'_>,
    values: &[(FutureName, ParcelText)],
) -> Result<(), Refusal>
    ensures fit { let known = value_fits (activities_of world.now) (homes_of world.now) in
        Tests (list_all known (map value_shape values.now)) result }
{
    for (future, value) in values {
        check_value(alloc, world, future, value)?;
    }
    Ok(())
}

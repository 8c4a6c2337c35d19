//! The homes of futures, in the order of futures.

ghost use Rattle.std.specs.Prelude.{◌≡◌, ◌<◌, IfOk, OnOk, Some, length, map, slice_get};
ghost use Rattle.std.specs.FinMap.{put};
ghost use Rattle.asp_model.specs.Names.{future_cmp};
ghost use Rattle.asp_model.specs.Shapes.{future_shape};
ghost use Rattle.future_update.specs.Holders.{AreHomes, home_shape};
ghost use Rattle.future_update.specs.Records.{AreRecords, shape_of};

use crate::records::Records;
use asp_model::{ActivityName, FutureName};
use std::alloc::{AllocError, Global};
use std::collections::BTreeMap;

/// The futures that have homes, ascending, each with its home.
pub fn homes_of(
    alloc: Global,
    records: &Records,
) -> Result<Vec<(FutureName, ActivityName)>, AllocError>
    requires records { AreRecords records.now }
    ensures homes { let homes = (shape_of records.now).homes in
        IfOk result (λ v. AreHomes homes (map home_shape v.items)) }
{
    Vec::from_iter(alloc, homes_by_future(alloc, records)?)
}

// From the last to the first, whose home replaces that of an equal future.
fn homes_by_future(
    alloc: Global,
    records: &Records,
) -> Result<BTreeMap<FutureName, ActivityName>, AllocError>
    requires records { AreRecords records.now }
    ensures homes { let homes = (shape_of records.now).homes in
        IfOk result (λ m. AreHomes homes (map home_shape m.entries)) }
{
    let mut homes = BTreeMap::new(alloc);
    for number in (0..records.homes.len()).rev() {
        let (future, home) = home_at(alloc, records, number)?;
        put_home(&mut homes, future, home)?;
    }
    Ok(homes)
}

#[tactic(auto, using(crate::proofs::HomeLemmas::put_as_shapes))]
fn put_home(
    homes: &mut BTreeMap<FutureName, ActivityName>,
    future: FutureName,
    home: ActivityName,
) -> Result<(), AllocError>
    ensures put { let put = put future_cmp (future_shape future) home in
        OnOk result (map home_shape homes.new.entries ≡ put (map home_shape homes.old.entries)) }
{
    homes.insert(future, home)?;
    Ok(())
}

// The future of a number, with its home.
fn home_at(
    alloc: Global,
    records: &Records,
    number: usize,
) -> Result<(FutureName, ActivityName), AllocError>
    requires records { AreRecords records.now }
    requires within { number < length (shape_of records.now).homes }
    ensures home { IfOk result
        (λ h. slice_get (shape_of records.now).homes number ≡ Some (home_shape h)) }
{
    match records.homes.get_index(number) {
        Some((future, home)) => {
            let by = records.names.name(future.by).copy(alloc)?;
            let home = records.names.name(*home).copy(alloc)?;
            let index = future.index;
            Ok((FutureName { by, index }, home))
        }
        None => unreachable!(),
    }
}

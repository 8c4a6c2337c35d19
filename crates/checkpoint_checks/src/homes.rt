//! Homes: each future that was begun, in the order of futures, with an activity.

ghost use Rattle.std.specs.Prelude.{◌≡◌, ◌&&◌, IfOk, OnOk, None, is_some, map, not};
ghost use Rattle.std.specs.List.{list_all};
ghost use Rattle.std.specs.Option.{option_map};
ghost use Rattle.asp_model.specs.Names.{FutureShape, Name, main_name, same_name};
ghost use Rattle.asp_model.specs.Shapes.{future_shape};
ghost use Rattle.checkpoint_items.specs.Lines.{home_shape};
ghost use Rattle.checkpoint_parts.specs.Shapes.{activity_shape};
ghost use Rattle.proper_terms.specs.Tests.{Tests};
ghost use Rattle.checkpoint_checks.specs.Maps.{activity_in, has_in, home_in, no_homes, with_home, with_homes};
ghost use Rattle.checkpoint_checks.specs.Homes.{all_housed, ascend_from, home_fits, home_future, is_after, value_future};

use crate::world::{has_name, home, sends};
use asp_model::{ActivityName, FutureName};
use checkpoint_parts::ActivityText;
use checkpoint_reading::ParcelText;
use proper_terms::Refusal;
use std::alloc::{AllocError, Global};
use std::cmp::Ordering;
use std::collections::{BTreeMap, BTreeSet};

fn check_after(last: Option<&FutureName>, future: &FutureName) -> Result<(), Refusal>
    ensures after { let before = option_map (λ f. future_shape f.now) last.entry in
        Tests (is_after before (future_shape future.now)) result }
{
    let Some(last) = last else {
        return Ok(());
    };
    match last.cmp(future) {
        Ordering::Less => Ok(()),
        _ => Err(Refusal::Unsound),
    }
}

/// The futures of homes ascend.
pub fn check_homes_ascend(homes: &[(FutureName, ActivityName)]) -> Result<(), Refusal>
    ensures ascend { Tests (ascend_from None (map home_future homes.now)) result }
{
    let mut last = None;
    for (future, _) in homes {
        check_after(last, future)?;
        last = Some(future);
    }
    Ok(())
}

/// The futures that have values ascend.
pub fn check_values_ascend(values: &[(FutureName, ParcelText)]) -> Result<(), Refusal>
    ensures ascend { Tests (ascend_from None (map value_future values.now)) result }
{
    let mut last = None;
    for (future, _) in values {
        check_after(last, future)?;
        last = Some(future);
    }
    Ok(())
}

fn empty<'a>(alloc: Global) -> BTreeMap<FutureName, &'a ActivityName>
    ensures empty { home_in result ≡ no_homes }
{
    BTreeMap::new(alloc)
}

fn add<'a>(
    alloc: Global,
    homes: &mut BTreeMap<FutureName, &'a ActivityName>,
    future: &FutureName,
    home: &'a ActivityName,
) -> Result<(), AllocError>
    ensures homes { let g = future_shape future.now in
        OnOk result (home_in homes.new ≡ with_home (home_in homes.old) g home.entry.now) }
{
    let key = future.copy(alloc)?;
    homes.insert(key, home)?;
    Ok(())
}

/// The homes by their futures.
pub fn collect_homes<'a>(
    alloc: Global,
    pairs: &'a [(FutureName, ActivityName)],
) -> Result<BTreeMap<FutureName, &'a ActivityName>, AllocError>
    ensures homes { let all = with_homes no_homes (map home_shape pairs.entry.now) in
        IfOk result (λ m. home_in m ≡ all) }
{
    let mut homes = empty(alloc);
    for (future, home) in pairs {
        add(alloc, &mut homes, future, home)?;
    }
    Ok(homes)
}

fn check_housed(
    homes: &BTreeMap<FutureName, &ActivityName>,
    future: &FutureName,
) -> Result<(), Refusal>
    ensures housed { Tests (is_some (home_in homes.now (future_shape future.now))) result }
{
    match home(homes, future) {
        Some(_) => Ok(()),
        None => Err(Refusal::Unsound),
    }
}

// All requests that an activity has sent have homes; the first that has none ends the loop.
fn check_sends(
    alloc: Global,
    homes: &BTreeMap<FutureName, &ActivityName>,
    activity: &ActivityText,
) -> Result<(), Refusal>
    ensures housed { Tests (all_housed (home_in homes.now) (activity_shape activity.now)) result }
{
    for number in 0..activity.sends {
        let by = activity.name.copy(alloc)?;
        let index = number + 1;
        check_housed(homes, &FutureName { by, index })?;
    }
    Ok(())
}

/// All futures that were begun have homes.
pub fn check_all_sends(
    alloc: Global,
    homes: &BTreeMap<FutureName, &ActivityName>,
    activities: &[ActivityText],
) -> Result<(), Refusal>
    ensures housed { let xs = map activity_shape activities.now in
        Tests (list_all (all_housed (home_in homes.now)) xs) result }
{
    for activity in activities {
        check_sends(alloc, homes, activity)?;
    }
    Ok(())
}

// The future was begun, and stands somewhere; its home is there, and is not main.
fn home_fits<'a>(
    main: &ActivityName,
    names: &BTreeMap<ActivityName, &ActivityText>,
    standing: &BTreeSet<&'a FutureName>,
    future: &'a FutureName,
    home: &ActivityName,
) -> bool
    requires main { main.now ≡ main_name }
    ensures fits { let pair : FutureShape × Name = (future_shape future.now, home.now) in
        result ≡ home_fits (activity_in names.now) (has_in standing.now) pair }
{
    (1 <= future.index && future.index <= sends(names, &future.by))
        && ((has_name(names, home) && home != main) && stands(standing, future))
}

fn stands<'a>(standing: &BTreeSet<&'a FutureName>, future: &'a FutureName) -> bool
    ensures stands { result ≡ has_in standing.now (future_shape future.now) }
{
    standing.contains(&future)
}

/// So of each home.
pub fn check_homes<'a>(
    alloc: Global,
    names: &BTreeMap<ActivityName, &ActivityText>,
    standing: &BTreeSet<&'a FutureName>,
    homes: &'a [(FutureName, ActivityName)],
) -> Result<(), Refusal>
    ensures fit { let fits = home_fits (activity_in names.now) (has_in standing.now) in
        Tests (list_all fits (map home_shape homes.now)) result }
{
    let main = ActivityName::main(alloc)?;
    for (future, home) in homes {
        if !home_fits(&main, names, standing, future, home) {
            return Err(Refusal::Unsound);
        }
    }
    Ok(())
}

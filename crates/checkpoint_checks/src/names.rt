//! Names: main and the created activities, each once.

ghost use Rattle.std.specs.Prelude.{◌≡◌, ◌&&◌, OnOk, IfOk, map, not};
ghost use Rattle.std.specs.List.{list_all};
ghost use Rattle.asp_model.specs.Names.{main_name, same_name};
ghost use Rattle.checkpoint_parts.specs.Shapes.{activity_shape};
ghost use Rattle.proper_terms.specs.Tests.{Tests};
ghost use Rattle.checkpoint_checks.specs.Maps.{activity_in, nobody, with_activities, with_activity};
ghost use Rattle.checkpoint_checks.specs.Names.{all_named, are_created, begin_with_main, is_created, is_named};

use crate::world::{creations, has_name};
use asp_model::ActivityName;
use checkpoint_items::name_of;
use checkpoint_parts::ActivityText;
use proper_terms::Refusal;
use std::alloc::Global;
use std::collections::BTreeMap;

fn add<'a>(
    alloc: Global,
    names: &mut BTreeMap<ActivityName, &'a ActivityText>,
    activity: &'a ActivityText,
) -> Result<(), Refusal>
    ensures names { let x = activity_shape activity.entry.now in
        OnOk result (activity_in names.new ≡ with_activity (activity_in names.old) x) }
    ensures is_new { Tests (not (is_named (activity_in names.old) activity.entry.now.name)) result }
{
    let name = activity.name.copy(alloc)?;
    let old = names.insert(name, activity)?;
    if old.is_some() {
        return Err(Refusal::Unsound);
    }
    Ok(())
}

// One of these has created the name.
#[tactic(auto, using(crate::proofs::NameLemmas::parted_is))]
fn check_created(
    alloc: Global,
    names: &BTreeMap<ActivityName, &ActivityText>,
    name: &ActivityName,
) -> Result<(), Refusal>
    ensures created { Tests (is_created (activity_in names.now) name.now) result }
{
    let Some((last, front)) = name.path().split_last() else {
        return Err(Refusal::Unsound);
    };
    let by = name_of(alloc, front)?;
    if 1 <= *last && *last <= creations(names, &by) {
        Ok(())
    } else {
        Err(Refusal::Unsound)
    }
}

fn add_all<'a>(
    alloc: Global,
    names: &mut BTreeMap<ActivityName, &'a ActivityText>,
    activities: &'a [ActivityText],
) -> Result<(), Refusal>
    ensures names { let xs = map activity_shape activities.entry.now in
        OnOk result (activity_in names.new ≡ with_activities (activity_in names.old) xs) }
    ensures created { let xs = map activity_shape activities.entry.now in
        Tests (are_created (activity_in names.old) xs) result }
{
    for activity in activities {
        check_created(alloc, names, &activity.name)?;
        add(alloc, names, activity)?;
    }
    Ok(())
}

fn check_main(alloc: Global, name: &ActivityName) -> Result<(), Refusal>
    ensures main { Tests (same_name name.now main_name) result }
{
    if *name == ActivityName::main(alloc)? {
        Ok(())
    } else {
        Err(Refusal::Unsound)
    }
}

fn empty<'a>(alloc: Global) -> BTreeMap<ActivityName, &'a ActivityText>
    ensures empty { activity_in result ≡ nobody }
{
    BTreeMap::new(alloc)
}

/// All activities by their names: main is first, and each other one stands behind the one that has
/// created it.
pub fn collect_names<'a>(
    alloc: Global,
    activities: &'a [ActivityText],
) -> Result<BTreeMap<ActivityName, &'a ActivityText>, Refusal>
    ensures names { let all = with_activities nobody (map activity_shape activities.entry.now) in
        IfOk result (λ m. activity_in m ≡ all) }
    ensures begin { Tests (begin_with_main (map activity_shape activities.entry.now)) result }
{
    let Some((first, others)) = activities.split_first() else {
        return Err(Refusal::Unsound);
    };
    check_main(alloc, &first.name)?;
    let mut names = empty(alloc);
    add(alloc, &mut names, first)?;
    add_all(alloc, &mut names, others)?;
    Ok(names)
}

fn check_there(
    names: &BTreeMap<ActivityName, &ActivityText>,
    name: &ActivityName,
) -> Result<(), Refusal>
    ensures there { Tests (is_named (activity_in names.now) name.now) result }
{
    if has_name(names, name) {
        Ok(())
    } else {
        Err(Refusal::Unsound)
    }
}

// All that an activity has created are there; the first that is missing ends the loop.
fn check_creations(
    alloc: Global,
    names: &BTreeMap<ActivityName, &ActivityText>,
    activity: &ActivityText,
) -> Result<(), Refusal>
    ensures named { Tests (all_named (activity_in names.now) (activity_shape activity.now)) result }
{
    for number in 0..activity.creations {
        let name = activity.name.created(alloc, number + 1)?;
        check_there(names, &name)?;
    }
    Ok(())
}

/// All that were created are there.
pub fn check_all_creations(
    alloc: Global,
    names: &BTreeMap<ActivityName, &ActivityText>,
    activities: &[ActivityText],
) -> Result<(), Refusal>
    ensures named { let xs = map activity_shape activities.now in
        Tests (list_all (all_named (activity_in names.now)) xs) result }
{
    for activity in activities {
        check_creations(alloc, names, activity)?;
    }
    Ok(())
}

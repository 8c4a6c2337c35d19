//! Whole checkpoints.

ghost use Rattle.std.specs.Prelude.{◌≡◌, ◌↔◌, ◌&&◌, IfOk, IsTrue, map};
ghost use Rattle.checkpoint_parts.specs.Shapes.{activity_shape, checkpoint_shape};
ghost use Rattle.law_checkpoints.specs.Sound.{IsSoundFrozen};
ghost use Rattle.proper_terms.specs.Tests.{Tests};
ghost use Rattle.checkpoint_checks.specs.Maps.{activities_of, activity_in, homes_of, nobody, with_activities};
ghost use Rattle.checkpoint_checks.specs.Whole.{all_activities, all_homes, checkpoint_fits, homes_ascend, names_fit, parts_fit, stand_once};

use crate::activities::check_activities;
use crate::homes::{
    check_all_sends, check_homes, check_homes_ascend, check_values_ascend, collect_homes,
};
use crate::names::{check_all_creations, collect_names};
use crate::parcels::check_values;
use crate::standing::collect_standing;
use crate::world::World;
use asp_model::ActivityName;
use checkpoint_parts::{ActivityText, CheckpointText};
use proper_terms::Refusal;
use std::alloc::{AllocError, Global};
use std::collections::BTreeMap;

fn check_names<'a>(
    alloc: Global,
    activities: &'a [ActivityText],
) -> Result<BTreeMap<ActivityName, &'a ActivityText>, Refusal>
    ensures names { let all = with_activities nobody (map activity_shape activities.entry.now) in
        IfOk result (λ m. activity_in m ≡ all) }
    ensures fit { Tests (names_fit (map activity_shape activities.entry.now)) result }
{
    let names = collect_names(alloc, activities)?;
    check_all_creations(alloc, &names, activities)?;
    Ok(names)
}

#[tactic(auto, using(crate::proofs::LoopLemmas::key_laws))]
fn check_ascending(file: &CheckpointText) -> Result<(), Refusal>
    ensures ascend { Tests (homes_ascend (checkpoint_shape file.now)) result }
{
    check_homes_ascend(&file.homes)?;
    check_values_ascend(&file.values)
}

fn check_parts(alloc: Global, world: &World<'_>, file: &CheckpointText) -> Result<(), Refusal>
    requires activities { activities_of world.now ≡ all_activities (checkpoint_shape file.now) }
    requires homes { homes_of world.now ≡ all_homes (checkpoint_shape file.now) }
    ensures fit { Tests (parts_fit file.now) result }
{
    check_activities(alloc, world, &file.activities)?;
    check_values(alloc, world, &file.values)
}

fn check_standing(
    alloc: Global,
    names: &BTreeMap<ActivityName, &ActivityText>,
    file: &CheckpointText,
) -> Result<(), Refusal>
    requires activities { activity_in names.now ≡ all_activities (checkpoint_shape file.now) }
    ensures once { Tests (stand_once (checkpoint_shape file.now)) result }
{
    let standing = collect_standing(alloc, file)?;
    check_homes(alloc, names, &standing, &file.homes)
}

fn check_whole(alloc: Global, file: &CheckpointText) -> Result<(), Refusal>
    ensures fits { Tests (checkpoint_fits file.now) result }
{
    let names = check_names(alloc, &file.activities)?;
    check_ascending(file)?;
    let homes = collect_homes(alloc, &file.homes)?;
    check_all_sends(alloc, &homes, &file.activities)?;
    let world = World { names, homes };
    check_parts(alloc, &world, file)?;
    check_standing(alloc, &world.names, file)
}

/// The checkpoint is sound.
pub fn is_sound(alloc: Global, file: &CheckpointText) -> Result<bool, AllocError>
    ensures sound { IfOk result (λ b. IsTrue b ↔ IsSoundFrozen (checkpoint_shape file.now)) }
{
    match check_whole(alloc, file) {
        Ok(()) => Ok(true),
        Err(Refusal::Unsound) => Ok(false),
        Err(Refusal::Memory(error)) => Err(error),
    }
}

//! How many requests each activity of a checkpoint has served.

ghost use Rattle.std.specs.Prelude.{◌≡◌, ◌+◌, ◌<◌, ◌≤◌, ◌^◌, IfOk, OnOk, length, map};
ghost use Rattle.checkpoint_items.specs.Lines.{home_shape};
ghost use Rattle.checkpoint_parts.specs.Shapes.{checkpoint_shape};
ghost use Rattle.law_checkpoints.specs.Sound.{IsSoundFrozen};
ghost use Rattle.checkpoint_actors.specs.Counts.{
  answered_count,
  count_in,
  counts_of,
  no_counts,
  with_one,
};

use asp_model::{ActivityName, FutureName};
use checkpoint_parts::{ActivityText, CheckpointText};
use std::alloc::{AllocError, Global};
use std::collections::HashMap;

fn empty<'a>(alloc: Global) -> HashMap<&'a ActivityName, u64>
    ensures empty { count_in result ≡ no_counts }
{
    HashMap::new(alloc)
}

#[tactic(auto, unfolding(crate::specs::Counts::count_in))]
fn count_of<'a>(counts: &HashMap<&'a ActivityName, u64>, name: &'a ActivityName) -> u64
    ensures count { result ≡ count_in counts.now name.entry.now }
{
    counts.get(&name).copied().unwrap_or(0)
}

fn add<'a>(
    counts: &mut HashMap<&'a ActivityName, u64>,
    name: &'a ActivityName,
) -> Result<(), AllocError>
    requires small { count_in counts.old name.now < 2 ^ 63 }
    ensures counts { let n = name.entry.now in
        OnOk result (count_in counts.new ≡ with_one (count_in counts.old) n) }
{
    let before = count_of(counts, name);
    counts.insert(name, before + 1)?;
    Ok(())
}

// How many futures have their home at each activity.
fn count_homes<'a>(
    alloc: Global,
    homes: &'a [(FutureName, ActivityName)],
) -> Result<HashMap<&'a ActivityName, u64>, AllocError>
    requires small { length homes.now < 2 ^ 63 }
    ensures counts { let hs = map home_shape homes.entry.now in
        IfOk result (λ m. count_in m ≡ counts_of hs) }
{
    let mut counts = empty(alloc);
    for (_, home) in homes {
        add(&mut counts, home)?;
    }
    Ok(counts)
}

// All that an activity received, but for what is pending.
fn served<'a>(counts: &HashMap<&'a ActivityName, u64>, activity: &'a ActivityText) -> u64
    requires pending { let a = activity.now in
        length a.parts.queue.items ≤ count_in counts.now a.name }
    ensures served { let a = activity.entry.now in
        result + length a.parts.queue.items ≡ count_in counts.now a.name }
{
    count_of(counts, &activity.name) - activity.parts.queue.len() as u64
}

/// How many requests each activity has served: all whose futures have their home there, but for the
/// pending ones.
pub fn answered(alloc: Global, file: &CheckpointText) -> Result<Vec<u64>, AllocError>
    requires sound { IsSoundFrozen (checkpoint_shape file.now) }
    ensures answered { let f = checkpoint_shape file.now in
        IfOk result (λ v. v.items ≡ map (answered_count f) f.activities) }
{
    let counts = count_homes(alloc, &file.homes)?;
    let mut answered = Vec::with_capacity(alloc, file.activities.len())?;
    for activity in &file.activities {
        answered.push(served(&counts, activity))?;
    }
    Ok(answered)
}

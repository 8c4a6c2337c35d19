//! The activities of a checkpoint by their names, and its homes by their futures.

ghost use Rattle.std.specs.Prelude.{◌≡◌, is_some, not};
ghost use Rattle.std.specs.Option.{option_map};
ghost use Rattle.asp_model.specs.Shapes.{future_shape};
ghost use Rattle.checkpoint_parts.specs.Shapes.{activity_shape};
ghost use Rattle.proper_terms.specs.Tests.{Tests};
ghost use Rattle.checkpoint_checks.specs.Maps.{activities_of, activity_in, home_in, homes_of};
ghost use Rattle.checkpoint_checks.specs.Names.{creations_at, is_named, sends_at};
ghost use Rattle.checkpoint_checks.specs.Cells.{is_at};

use asp_model::{ActivityName, FutureName};
use checkpoint_parts::ActivityText;
use proper_terms::Refusal;
use std::collections::BTreeMap;

/// Activities by their names, and homes by their futures.
#[derive(Drop)]
pub struct World<'a> {
    pub names: BTreeMap<ActivityName, &'a ActivityText>,
    pub homes: BTreeMap<FutureName, &'a ActivityName>,
}

/// The activity of a name.
pub fn find<'a>(
    names: &BTreeMap<ActivityName, &'a ActivityText>,
    name: &ActivityName,
) -> Option<&'a ActivityText>
    ensures found { let x = option_map (λ a. activity_shape a.now) result in
        x ≡ activity_in names.now name.now }
{
    names.get(name).copied()
}

/// There is an activity of this name.
pub fn has_name(names: &BTreeMap<ActivityName, &ActivityText>, name: &ActivityName) -> bool
    ensures named { result ≡ is_named (activity_in names.now) name.now }
{
    find(names, name).is_some()
}

/// How many activities one has created, and none where there is none of the name.
pub fn creations(names: &BTreeMap<ActivityName, &ActivityText>, name: &ActivityName) -> u32
    ensures creations { result ≡ creations_at (activity_in names.now) name.now }
{
    match find(names, name) {
        Some(activity) => activity.creations,
        None => 0,
    }
}

/// How many requests one has sent, and none where there is none of the name.
pub fn sends(names: &BTreeMap<ActivityName, &ActivityText>, name: &ActivityName) -> u32
    ensures sends { result ≡ sends_at (activity_in names.now) name.now }
{
    match find(names, name) {
        Some(activity) => activity.sends,
        None => 0,
    }
}

/// The home of a future.
pub fn home<'a>(
    homes: &BTreeMap<FutureName, &'a ActivityName>,
    future: &FutureName,
) -> Option<&'a ActivityName>
    ensures home { option_map (λ n. n.now) result ≡ home_in homes.now (future_shape future.now) }
{
    homes.get(future).copied()
}

impl World<'_> {
    /// The activity of a reference is there.
    pub fn check_reference(&self, name: &ActivityName) -> Result<(), Refusal>
        ensures named { Tests (is_named (activities_of self.now) name.now) result }
    {
        if has_name(&self.names, name) {
            Ok(())
        } else {
            Err(Refusal::Unsound)
        }
    }

    /// A future has a home.
    pub fn check_future(&self, future: &FutureName) -> Result<(), Refusal>
        ensures housed { Tests (is_some (homes_of self.now (future_shape future.now))) result }
    {
        match home(&self.homes, future) {
            Some(_) => Ok(()),
            None => Err(Refusal::Unsound),
        }
    }

    /// A future has this home.
    pub fn check_at(&self, name: &ActivityName, future: &FutureName) -> Result<(), Refusal>
        ensures at { Tests (is_at name.now (homes_of self.now (future_shape future.now))) result }
    {
        match home(&self.homes, future) {
            Some(home) => {
                if home == name {
                    Ok(())
                } else {
                    Err(Refusal::Unsound)
                }
            }
            None => Err(Refusal::Unsound),
        }
    }
}

//! Logs by the names of activities.

ghost use Rattle.std.specs.Prelude.{◌≡◌, IfOk, map, option_map, slice_get};
ghost use Rattle.std.specs.BTreeMap.{get};
ghost use Rattle.std.specs.Option.{option_copied};
ghost use Rattle.asp_model.specs.Names.{name_cmp};
ghost use Rattle.asp_model.specs.Replay.{log_in};
ghost use Rattle.asp_model.specs.Shapes.{reception_shape};
ghost use Rattle.asp_model.specs.Step.{reception_at};
ghost use Rattle.explain.specs.OrderKept.{AreNumbered, log_entry};

use asp_model::{ActivityName, Reception};
use std::alloc::{AllocError, Global};
use std::collections::BTreeMap;

/// The number of the log of each activity.
#[derive(Drop)]
pub struct Numbers {
    pub numbers: BTreeMap<ActivityName, usize>,
}

/// The number of the log of each activity that has one.
pub fn numbers_in(
    alloc: Global,
    lists: &[(ActivityName, Vec<Reception>)],
) -> Result<Numbers, AllocError>
    ensures numbered { IfOk result (AreNumbered (map log_entry lists.now)) }
{
    let mut numbers = BTreeMap::new(alloc);
    for i in 0..lists.len() {
        let entry = &lists[i];
        if !numbers.contains_key(&entry.0) {
            numbers.insert(entry.0.copy(alloc)?, i)?;
        }
    }
    Ok(Numbers { numbers })
}

fn reception_in(log: &[Reception], place: usize) -> Option<&Reception>
    ensures { option_copied result ≡ slice_get log.now place }
{
    log.get(place)
}

fn log_at(
    lists: &[(ActivityName, Vec<Reception>)],
    number: usize,
) -> Option<&(ActivityName, Vec<Reception>)>
    ensures { option_copied result ≡ slice_get lists.now number }
{
    lists.get(number)
}

impl Numbers {
    fn number(&self, name: &ActivityName) -> Option<usize>
        ensures { result ≡ get name_cmp self.now.numbers name.now }
    {
        match self.numbers.get(name) {
            Some(number) => Some(*number),
            None => None,
        }
    }

    /// What the log of an activity notes at a place.
    pub fn entry<'a>(
        &self,
        lists: &'a [(ActivityName, Vec<Reception>)],
        name: &ActivityName,
        place: usize,
    ) -> Option<&'a Reception>
        requires numbered { AreNumbered (map log_entry lists.now) self.now }
        ensures entry { option_map reception_shape (option_copied result)
            ≡ reception_at (log_in (map log_entry lists.entry.now) name.now) place }
    {
        let Some(number) = self.number(name) else {
            return None;
        };
        let Some(entry) = log_at(lists, number) else {
            return None;
        };
        reception_in(&entry.1, place)
    }
}

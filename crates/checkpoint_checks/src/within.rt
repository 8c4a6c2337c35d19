//! The limits of a checkpoint.

ghost use Rattle.std.specs.Prelude.{◌≡◌, ◌↔◌, ◌≤◌, IsTrue, SomeIff, map};
ghost use Rattle.checkpoint_parts.specs.Shapes.{activity_shape, checkpoint_shape};
ghost use Rattle.checkpoint_checks.specs.Within.{counted, IsWithin};

use asp_model::{MOST_REDUCTIONS, MOST_SAVED_ACTIVITIES, MOST_SAVED_HOMES};
use checkpoint_parts::{ActivityText, CheckpointText};

// The activities have counted at most so many reductions.
fn counts_within(activities: &[ActivityText], limit: u64) -> bool
    ensures within { IsTrue result ↔ (counted (map activity_shape activities.now) ≤ limit) }
{
    let mut left = limit;
    for activity in activities {
        match left.checked_sub(activity.reductions) {
            Some(rest) => left = rest,
            None => return false,
        }
    }
    true
}

/// The checkpoint is within its limits.
pub fn is_within(file: &CheckpointText) -> bool
    ensures within { IsTrue result ↔ IsWithin (checkpoint_shape file.now) }
{
    file.activities.len() <= MOST_SAVED_ACTIVITIES
        && file.homes.len() <= MOST_SAVED_HOMES
        && counts_within(&file.activities, MOST_REDUCTIONS)
}

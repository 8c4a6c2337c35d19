//! Activities with their pending requests.

ghost use Rattle.std.specs.Prelude.{◌≡◌, IfOk, List, length, map};
ghost use Rattle.std.specs.Arc.{arc_value};
ghost use Rattle.law_frozen.specs.Frozen.{FrozenActivity, FrozenShape};
ghost use Rattle.checkpoint_states.specs.Activities.{StandAs, StandsAs};
ghost use Rattle.checkpoint_actors.specs.Actors.{AreActorsOf, IsActorOf};
ghost use Rattle.checkpoint_actors.specs.Counts.{answered_count};

use crate::queues::make_queue;
use activity_step::Activity;
use asp_model::ActivityName;
use checkpoint_states::MadeActivity;
use code_table::Code;
use std::alloc::{AllocError, Global};
use std::sync::Arc;
use step_activity::Actor;

/// An activity with its name, behind so many requests that it has served.
fn make_actor(
    alloc: Global,
    code: &Arc<Code>,
    answered: u64,
    activity: MadeActivity,
) -> Result<(ActivityName, Box<Actor>), AllocError>
    ensures actor { let k = arc_value code.now in (f : FrozenShape) (x : FrozenActivity) →
        StandsAs k activity x → answered ≡ answered_count f x →
        IfOk result (IsActorOf k f x) }
{
    let MadeActivity {
        name,
        state,
        active,
        present,
        reductions,
        sends,
        creations,
        log,
        queue,
    } = activity;
    let queue = make_queue(alloc, code, answered, queue)?;
    let code = Arc::try_clone(code)?;
    let activity = Activity::restored(code, state, active, present, reductions);
    let actor = Actor::restored(activity, queue, log, sends, creations);
    Ok((name, Box::new(alloc, actor)?))
}

/// Activities with their names, in order, each behind as many requests as it has served.
pub fn make_actors(
    alloc: Global,
    code: &Arc<Code>,
    answered: &[u64],
    activities: Vec<MadeActivity>,
) -> Result<Vec<(ActivityName, Box<Actor>)>, AllocError>
    requires numbers { length answered.now ≡ length activities.items }
    ensures actors { let k = arc_value code.now in (f : FrozenShape) (xs : List FrozenActivity) →
        StandAs k activities.items xs → answered.now ≡ map (answered_count f) xs →
        IfOk result (λ v. AreActorsOf k f xs v.items) }
{
    let mut actors = Vec::with_capacity(alloc, activities.len())?;
    for activity in activities {
        let number = actors.len();
        actors.push(make_actor(alloc, code, answered[number], activity)?)?;
    }
    Ok(actors)
}

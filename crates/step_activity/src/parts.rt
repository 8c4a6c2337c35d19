//! What an activity consists of, for a reader of the whole.

ghost use Rattle.std.specs.Prelude.{◌≡◌, IfOk};
ghost use Rattle.std.specs.Option.{option_map};
ghost use Rattle.asp_model.specs.Configuration as model;
ghost use Rattle.asp_model.specs.Shapes.{future_shape};
ghost use Rattle.activity_step.specs.Activities.{StandsFor};

use activity_step::{Activity, State};
use asp_model::{FutureName, Reception};
use code_table::Place;
use request_queue::Queue;
use std::alloc::{AllocError, Global};

/// What an activity consists of.
#[derive(Drop)]
pub struct ActorParts {
    /// How many reductions it took.
    pub count: u64,
    pub sends: u32,
    pub creations: u32,
    /// What it received and asked, in order.
    pub log: Vec<Reception>,
    /// The pending requests.
    pub queue: Queue,
    /// The future of the service that runs, if it is no start term.
    pub present: Option<FutureName>,
    /// Its term with its suspended services, its store and its output.
    pub state: State,
    /// Where its active object stands.
    pub active: Place,
}

// The future of the service that runs.
pub(crate) fn copy_present(
    alloc: Global,
    activity: &Activity,
) -> Result<Option<FutureName>, AllocError>
    ensures present { (a : model.Activity) → StandsFor activity.now a →
        IfOk result (λ f. option_map future_shape f ≡ a.present) }
{
    match activity.present() {
        Some(name) => Ok(Some(name.copy(alloc)?)),
        None => Ok(None),
    }
}

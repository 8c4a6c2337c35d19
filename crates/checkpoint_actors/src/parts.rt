//! All of a checkpoint, over whole code.

ghost use Rattle.std.specs.Prelude.{IfOk, map};
ghost use Rattle.asp_model.specs.Shapes.{tree_of};
ghost use Rattle.law_checkpoints.specs.Sound.{IsSoundFrozen};
ghost use Rattle.law_steps.specs.Linked.{Each};
ghost use Rattle.checkpoint_parts.specs.Shapes.{activity_shape, checkpoint_shape};
ghost use Rattle.checkpoint_reading.specs.Cells.{value_shape};
ghost use Rattle.checkpoint_states.specs.Activities.{MayBeMade};
ghost use Rattle.checkpoint_actors.specs.Parts.{ArePartsOf, IsMadeFrom};
ghost use Rattle.checkpoint_actors.specs.Values.{IsProperValue};

use crate::actors::make_actors;
use crate::counts::answered;
use crate::values::{MadeValue, fill_all, make_values};
use asp_check::Checked;
use asp_model::{ActivityName, FutureName};
use checkpoint_parts::{ActivityText, CheckpointText};
use checkpoint_reading::ParcelText;
use checkpoint_states::{MadeActivity, make_activities};
use code_compiler::{compile_root, prelude};
use code_table::Code;
use future_table::FutureTable;
use std::alloc::{AllocError, Global};
use std::sync::Arc;
use step_activity::Actor;

/// What goes on from a checkpoint.
#[derive(Drop)]
pub struct Parts {
    pub code: Arc<Code>,
    /// Each future with the activity that received its request, in the order of futures.
    pub homes: Vec<(FutureName, ActivityName)>,
    pub futures: FutureTable,
    /// In the order of creation.
    pub actors: Vec<(ActivityName, Box<Actor>)>,
}

/// Values and activities, and the code that all of them share.
#[derive(Drop)]
struct Made {
    code: Arc<Code>,
    values: Vec<MadeValue>,
    activities: Vec<MadeActivity>,
}

/// Makes values and activities. In the code the program comes behind what they need.
fn make_all(
    alloc: Global,
    values: Vec<(FutureName, ParcelText)>,
    activities: Vec<ActivityText>,
    program: &Checked,
) -> Result<Made, AllocError>
    requires values { Each IsProperValue (map value_shape values.items) }
    requires activities { Each MayBeMade (map activity_shape activities.items) }
    ensures made { let vs = map value_shape values.items in
        let xs = map activity_shape activities.items in
        IfOk result (λ m. IsMadeFrom vs xs (tree_of program.now.program.root) m) }
{
    let mut nodes = prelude(alloc)?;
    let values = make_values(alloc, &mut nodes, values)?;
    let activities = make_activities(alloc, &mut nodes, activities)?;
    compile_root(alloc, &mut nodes, &program.program().root)?;
    let code = Arc::new(alloc, Code::of(nodes))?;
    Ok(Made {
        code,
        values,
        activities,
    })
}

/// What goes on from a sound checkpoint of a program.
pub fn make_parts(
    alloc: Global,
    file: CheckpointText,
    program: &Checked,
) -> Result<Parts, AllocError>
    requires sound { IsSoundFrozen (checkpoint_shape file) }
    ensures parts { let f = checkpoint_shape file in
        IfOk result (ArePartsOf f (tree_of program.now.program.root)) }
{
    let answered = answered(alloc, &file)?;
    let CheckpointText {
        homes,
        values,
        activities,
    } = file;
    let Made {
        code,
        values,
        activities,
    } = make_all(alloc, values, activities, program)?;
    let futures = fill_all(alloc, &code, values)?;
    let actors = make_actors(alloc, &code, &answered, activities)?;
    Ok(Parts {
        code,
        homes,
        futures,
        actors,
    })
}

//! What a core goes on from, and where its run begins.

ghost use Rattle.std.specs.Prelude.{◌≡◌, IfOk, Some};
ghost use Rattle.std.specs.Arc.{arc_value};
ghost use Rattle.asp_model.specs.Shapes.{tree_of};
ghost use Rattle.law_checkpoints.specs.Sound.{IsSoundFrozen};
ghost use Rattle.law_frozen.specs.Frozen.{thawed_first};
ghost use Rattle.core_state.specs.Cores.{program_of};
ghost use Rattle.checkpoint_parts.specs.Shapes.{checkpoint_shape};
ghost use Rattle.asp_core.specs.Frozen.{StandsIn};

use asp_check::Checked;
use asp_core::{First, Frozen};
use checkpoint_actors::{Parts, make_parts};
use checkpoint_parts::CheckpointText;
use std::alloc::{AllocError, Global};

/// Where a run goes on that was stopped so.
fn first_of_file(_file: &CheckpointText) -> First
    ensures first { result.shape ≡ Some (thawed_first (checkpoint_shape _file.now)) }
{
    First {}
}

/// What goes on from a sound checkpoint of a program, and where.
pub fn make_frozen(
    alloc: Global,
    file: CheckpointText,
    program: &Checked,
) -> Result<(Frozen, First), AllocError>
    requires sound { IsSoundFrozen (checkpoint_shape file) }
    ensures first { let x = thawed_first (checkpoint_shape file) in
        IfOk result (λ r. r.1.shape ≡ Some x) }
    ensures stands { let x = thawed_first (checkpoint_shape file) in
        IfOk result (λ r. StandsIn r.0 x) }
    ensures program { let t = tree_of program.now.program.root in
        IfOk result (λ r. program_of (arc_value r.0.code) ≡ t) }
{
    let first = first_of_file(&file);
    let Parts {
        code,
        homes,
        futures,
        actors,
    } = make_parts(alloc, file, program)?;
    let frozen = Frozen {
        code,
        homes,
        futures,
        activities: actors,
    };
    Ok((frozen, first))
}

//! What files keep, from which runs go on.

ghost use Rattle.std.specs.Prelude.{◌≤◌, ◌↔◌, IfErr, IfOk, IsTrue, map};
ghost use Rattle.asp_model.specs.Shapes.{marked_of};
ghost use Rattle.checkpoint_checks.specs.Within.{counted};
ghost use Rattle.checkpoint_files.specs.Files.{Tells};
ghost use Rattle.checkpoint_parts.specs.Shapes.{activity_shape, checkpoint_shape};
ghost use Rattle.checkpoint_text.specs.Reading.{read_checkpoint as reading_of};
ghost use Rattle.law_checkpoints.specs.Sound.{IsSoundFrozen};
ghost use Rattle.law_program_files.specs.Programs.{printed};
ghost use Rattle.run_files.specs.Files.{HasRoom, IsReadAs, IsUsable, StopsFile, StopsFrozen};

use crate::stop::FileStop;
use asp_check::Checked;
use asp_model::MOST_REDUCTIONS;
use asp_print::print_program;
use checkpoint_checks::{is_sound, is_within};
use checkpoint_files::read_checkpoint;
use checkpoint_items::ReadError;
use checkpoint_parts::{ActivityText, CheckpointText};
use std::alloc::{AllocError, Global};

// The activities have counted at most so many reductions.
fn have_counted(activities: &[ActivityText], limit: u64) -> bool
    ensures counted { IsTrue result ↔ (counted (map activity_shape activities.now) ≤ limit) }
{
    let mut left = limit;
    for activity in activities {
        match left.checked_sub(activity.reductions) {
            Some(rest) => left = rest,
            None => return false,
        }
    }
    true
}

// What was counted and the budget come to at most `MOST_REDUCTIONS`.
fn is_few(file: &CheckpointText, budget: u64) -> bool
    requires sound { IsSoundFrozen (checkpoint_shape file.now) }
    ensures few { IsTrue result ↔ HasRoom (checkpoint_shape file.now) budget }
{
    if budget > MOST_REDUCTIONS {
        return false;
    }
    have_counted(&file.activities, MOST_REDUCTIONS - budget)
}

// A run can go on from it.
fn is_usable(alloc: Global, file: &CheckpointText) -> Result<bool, AllocError>
    ensures usable { IfOk result (λ b. IsTrue b ↔ IsUsable (checkpoint_shape file.now)) }
{
    if !is_within(file) {
        return Ok(false);
    }
    is_sound(alloc, file)
}

// A run can go on from it, with this budget.
fn check_file(alloc: Global, file: &CheckpointText, budget: u64) -> Result<(), FileStop>
    ensures usable { IfOk result (λ _. IsUsable (checkpoint_shape file.now)) }
    ensures within { IfOk result (λ _. HasRoom (checkpoint_shape file.now) budget) }
    ensures stop { IfErr result (StopsFrozen (checkpoint_shape file.now) budget) }
{
    let usable = is_usable(alloc, file)?;
    if !usable {
        return Err(FileStop::Malformed);
    }
    if !is_few(file, budget) {
        return Err(FileStop::TooMany);
    }
    Ok(())
}

// What the bytes keep, if they are a checkpoint of the program.
fn reading(alloc: Global, program: &Checked, bytes: &[u8]) -> Result<CheckpointText, ReadError>
    ensures reading { let text = printed (marked_of program.now.program.root) in
        Tells (reading_of text bytes.now) result }
{
    let text = print_program(alloc, program.program())?;
    read_checkpoint(alloc, &text, bytes)
}

/// What a checkpoint of the program keeps, if a run can go on from it with this budget.
pub fn read_file(
    alloc: Global,
    program: &Checked,
    bytes: &[u8],
    budget: u64,
) -> Result<CheckpointText, FileStop>
    ensures read { let term = marked_of program.now.program.root in
        IfOk result (λ f. IsReadAs term bytes.now (checkpoint_shape f)) }
    ensures within { IfOk result (λ f. HasRoom (checkpoint_shape f) budget) }
    ensures stop { let term = marked_of program.now.program.root in
        IfErr result (StopsFile term bytes.now budget) }
{
    let file = reading(alloc, program, bytes)?;
    check_file(alloc, &file, budget)?;
    Ok(file)
}

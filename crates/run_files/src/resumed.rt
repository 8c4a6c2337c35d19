//! Runs that go on from files.

ghost use Rattle.std.specs.Prelude.{◌<◌, ◌≤◌, IfErr, IfOk};
ghost use Rattle.asp_model.specs.Shapes.{marked_of};
ghost use Rattle.asp_model.specs.declared.limits.TheConstants.{MOST_WORKERS};
ghost use Rattle.run_files.specs.Files.{StopsFile};
ghost use Rattle.run_files.specs.Made.{IsMadeOf};
ghost use Rattle.run_files.specs.Resumed.{IsLeftOfFile, IsResumedFile};

use crate::files::read_file;
use crate::stop::FileStop;
use asp_check::Checked;
use asp_core::{First, Frozen};
use checkpoint_thaws::make_frozen;
use run_ends::RunEnd;
use run_resumes::run_resumed;
use run_saves::{Saved, run_saved_again};
use std::alloc::Global;
use std::sync::Wait;
use std::thread::Threads;
use update_policy::{Policies, UpdatePolicy};
use worker_pool::{Gate, Settings};

// What goes on from a checkpoint of the program, and where.
fn frozen_of(
    alloc: Global,
    program: &Checked,
    bytes: &[u8],
    budget: u64,
) -> Result<(Frozen, First), FileStop>
    ensures made { let term = marked_of program.now.program.root in
        IfOk result (λ r. IsMadeOf term bytes.now budget r.0 r.1) }
    ensures stop { let term = marked_of program.now.program.root in
        IfErr result (StopsFile term bytes.now budget) }
{
    let file = read_file(alloc, program, bytes, budget)?;
    let made = make_frozen(alloc, file, program)?;
    Ok(made)
}

/// Goes on from a checkpoint of the program by so many workers, until the verdict is there, and
/// answers the end of the run. The policies are dropped when the run ends.
pub fn resume_file<R: Threads + Wait + Sync, P: UpdatePolicy + Send + Drop, G: Gate>(
    rt: &R,
    alloc: Global,
    program: &Checked,
    bytes: &[u8],
    settings: Settings,
    policies: Policies<P>,
    gate: &G,
) -> Result<RunEnd, FileStop>
    requires workers { (0 < settings.workers) × (settings.workers ≤ MOST_WORKERS) }
    ensures resumed { let term = marked_of program.now.program.root in
        IfOk result (IsResumedFile term bytes.now settings.budget) }
    ensures stop { let term = marked_of program.now.program.root in
        IfErr result (StopsFile term bytes.now settings.budget) }
{
    let made = frozen_of(alloc, program, bytes, settings.budget)?;
    let end = run_resumed(rt, alloc, made.0, made.1, settings, policies, gate)?;
    Ok(end)
}

/// The same, but where the budget runs out the text of the checkpoint is answered, in pieces.
pub fn resume_file_saved<R: Threads + Wait + Sync, P: UpdatePolicy + Send + Drop, G: Gate>(
    rt: &R,
    alloc: Global,
    program: &Checked,
    bytes: &[u8],
    settings: Settings,
    policies: Policies<P>,
    gate: &G,
) -> Result<Saved, FileStop>
    requires workers { (0 < settings.workers) × (settings.workers ≤ MOST_WORKERS) }
    ensures resumed { let term = marked_of program.now.program.root in
        IfOk result (IsLeftOfFile term bytes.now settings.budget) }
    ensures stop { let term = marked_of program.now.program.root in
        IfErr result (StopsFile term bytes.now settings.budget) }
{
    let made = frozen_of(alloc, program, bytes, settings.budget)?;
    let left = run_saved_again(rt, alloc, program, made.0, made.1, settings, policies, gate)?;
    Ok(left)
}

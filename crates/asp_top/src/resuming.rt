//! Runs that go on from a checkpoint.

ghost use Rattle.std.specs.Prelude.{[], ◌∷◌, IfOk, IfErr};
ghost use Rattle.asp_model.specs.declared.limits.TheConstants.{MOST_CHECKPOINT_BYTES};
ghost use Rattle.run_files.specs.Files.{StopsFile};
ghost use Rattle.run_files.specs.Resumed.{IsLeftOfFile, IsResumedFile};
ghost use Rattle.command_line.specs.Task.{Resumes, SavesAgain};
ghost use Rattle.command_line.specs.Settings.{IsSettings};
ghost use Rattle.command_line.specs.Shapes.{settings_shape};
ghost use Rattle.asp_top.specs.Seen.{outside};
ghost use Rattle.asp_top.specs.Programs.{AsksInTurn, IsFile, files_of};
ghost use Rattle.asp_top.specs.Stops.{AsksOnce, StopsTask, program_in};
ghost use Rattle.asp_top.specs.Ready.{IsReady};
ghost use Rattle.asp_top.specs.Resumed.{IsGiven, IsResumedRunOf, IsSavedAgainOf, StopsBoth, StopsGiven, StopsInCheckpoint};

use crate::letting_go::let_go;
use crate::prepare::{Prepared, report_for};
use crate::programs::program_of;
use crate::saving::left_for;
use crate::stop::Stop;
use asp_check::Checked;
use asp_edge::{ReadError, Source};
use asp_model::MOST_CHECKPOINT_BYTES;
use command_line::Settings;
use run_ends::RunEnd;
use run_files::{FileStop, resume_file, resume_file_saved};
use run_saves::Saved;
use std::alloc::Global;
use std::sync::Wait;
use std::thread::Threads;
use update_policy::Policies;
use worker_pool::{Gate, Settings as Racing};

/// What is read before a run goes on.
#[derive(Drop)]
pub struct Given {
    pub program: Checked,
    /// The bytes of the checkpoint's file.
    pub checkpoint: Vec<u8>,
}

// The bytes of the checkpoint in the file of this name.
fn checkpoint_of<'a, S: Source>(name: &'a str, source: &mut S) -> Result<Vec<u8>, Stop<'a>>
    ensures file { let o = outside S.told source in
        IfOk result (λ v. IsFile o 0 name.entry.now MOST_CHECKPOINT_BYTES v.items) }
    ensures stop { IfErr result (StopsInCheckpoint (outside S.told source) name.entry.now) }
    ensures asked { AsksOnce (outside S.told source) name.entry.now }
{
    match source.read(name, MOST_CHECKPOINT_BYTES) {
        Ok(bytes) => Ok(bytes),
        Err(ReadError::Failed) => Err(Stop::Unread(name)),
        Err(ReadError::TooLong { taken: _ }) => Err(Stop::LongCheckpoint),
        Err(ReadError::Memory) => Err(Stop::Memory),
    }
}

// The program in one file, and the bytes of the checkpoint in another.
fn read_both<'a, S: Source>(
    alloc: Global,
    file: &'a str,
    checkpoint: &'a str,
    source: &mut S,
) -> Result<Given, Stop<'a>>
    ensures given { let o = outside S.told source in
        IfOk result (IsGiven o file.entry.now checkpoint.entry.now) }
    ensures stop { let o = outside S.told source in
        IfErr result (StopsGiven o file.entry.now checkpoint.entry.now) }
    ensures reads { let names = file.entry.now ∷ checkpoint.entry.now ∷ [] in
        AsksInTurn (outside S.told source) names }
{
    let program = program_of(alloc, file, source)?;
    let checkpoint = checkpoint_of(checkpoint, source)?;
    Ok(Given {
        program,
        checkpoint,
    })
}

// Goes on from the checkpoint as the settings ask.
fn raced_on<R: Threads + Wait + Sync, G: Gate>(
    rt: &R,
    alloc: Global,
    given: &Given,
    settings: Settings,
    policies: Policies,
    gate: &G,
) -> Result<RunEnd, FileStop>
    requires within { IsSettings (settings_shape settings) }
    ensures resumed { let program = program_in given.now.program in
        IfOk result (IsResumedFile program given.now.checkpoint.items settings.budget) }
    ensures stop { let program = program_in given.now.program in
        IfErr result (StopsFile program given.now.checkpoint.items settings.budget) }
{
    let racing = Racing {
        workers: settings.workers,
        budget: settings.budget,
        plan: settings.plan,
    };
    resume_file(
        rt,
        alloc,
        &given.program,
        &given.checkpoint,
        racing,
        policies,
        gate,
    )
}

// The end of a run of the program in one file that goes on from the checkpoint in another.
fn resume_run<'a, R: Threads + Wait + Sync, S: Source, G: Gate>(
    rt: &R,
    alloc: Global,
    file: &'a str,
    checkpoint: &'a str,
    settings: Settings,
    source: &mut S,
    policies: Policies,
    gate: &G,
) -> Result<RunEnd, Stop<'a>>
    requires within { IsSettings (settings_shape settings) }
    ensures ran { let o = outside S.told source in
        IfOk result (IsResumedRunOf o file.entry.now checkpoint.entry.now settings.budget) }
    ensures stop { let o = outside S.told source in
        IfErr result (StopsBoth o file.entry.now checkpoint.entry.now settings.budget) }
    ensures reads { let names = file.entry.now ∷ checkpoint.entry.now ∷ [] in
        AsksInTurn (outside S.told source) names }
{
    let given = read_both(alloc, file, checkpoint, source)?;
    let end = raced_on(rt, alloc, &given, settings, policies, gate);
    drop(given);
    Ok(end?)
}

/// The report of a run that goes on from a checkpoint, ready to be written.
pub fn prepare_resume<'a, R: Threads + Wait + Sync, S: Source, G: Gate>(
    rt: &R,
    alloc: Global,
    file: &'a str,
    checkpoint: &'a str,
    settings: Settings,
    depth: Option<u32>,
    source: &mut S,
    policies: Policies,
    gate: &G,
) -> Result<Prepared, Stop<'a>>
    requires within { IsSettings (settings_shape settings) }
    ensures answer { let settings = settings_shape settings in
        let task = Resumes file.entry.now checkpoint.entry.now settings depth in
        IfOk result (IsReady (outside S.told source) task) }
    ensures stop { let settings = settings_shape settings in
        let task = Resumes file.entry.now checkpoint.entry.now settings depth in
        IfErr result (StopsTask (outside S.told source) task) }
    ensures reads { let settings = settings_shape settings in
        let task = Resumes file.entry.now checkpoint.entry.now settings depth in
        AsksInTurn (outside S.told source) (files_of task) }
{
    let workers = settings.workers;
    let end = resume_run(
        rt, alloc, file, checkpoint, settings, source, policies, gate,
    )?;
    let report = report_for(alloc, &end, depth);
    let_go(rt, alloc, end, workers);
    Ok(report?)
}

// The same, and where the budget runs out the next checkpoint is written.
fn raced_on_and_saved<R: Threads + Wait + Sync, G: Gate>(
    rt: &R,
    alloc: Global,
    given: &Given,
    settings: Settings,
    policies: Policies,
    gate: &G,
) -> Result<Saved, FileStop>
    requires within { IsSettings (settings_shape settings) }
    ensures saved { let program = program_in given.now.program in
        IfOk result (IsLeftOfFile program given.now.checkpoint.items settings.budget) }
    ensures stop { let program = program_in given.now.program in
        IfErr result (StopsFile program given.now.checkpoint.items settings.budget) }
{
    let racing = Racing {
        workers: settings.workers,
        budget: settings.budget,
        plan: settings.plan,
    };
    resume_file_saved(
        rt,
        alloc,
        &given.program,
        &given.checkpoint,
        racing,
        policies,
        gate,
    )
}

// What is left of a run of the program in one file that goes on from the checkpoint in another.
fn save_again<'a, R: Threads + Wait + Sync, S: Source, G: Gate>(
    rt: &R,
    alloc: Global,
    file: &'a str,
    checkpoint: &'a str,
    settings: Settings,
    source: &mut S,
    policies: Policies,
    gate: &G,
) -> Result<Saved, Stop<'a>>
    requires within { IsSettings (settings_shape settings) }
    ensures ran { let o = outside S.told source in
        IfOk result (IsSavedAgainOf o file.entry.now checkpoint.entry.now settings.budget) }
    ensures stop { let o = outside S.told source in
        IfErr result (StopsBoth o file.entry.now checkpoint.entry.now settings.budget) }
    ensures reads { let names = file.entry.now ∷ checkpoint.entry.now ∷ [] in
        AsksInTurn (outside S.told source) names }
{
    let given = read_both(alloc, file, checkpoint, source)?;
    let saved = raced_on_and_saved(rt, alloc, &given, settings, policies, gate);
    drop(given);
    Ok(saved?)
}

/// A run that goes on from a checkpoint and is saved where its budget runs out, ready to be
/// written.
pub fn prepare_save_again<'a, R: Threads + Wait + Sync, S: Source, G: Gate>(
    rt: &R,
    alloc: Global,
    file: &'a str,
    checkpoint: &'a str,
    settings: Settings,
    source: &mut S,
    policies: Policies,
    gate: &G,
) -> Result<Prepared, Stop<'a>>
    requires within { IsSettings (settings_shape settings) }
    ensures answer { let settings = settings_shape settings in
        let task = SavesAgain file.entry.now checkpoint.entry.now settings in
        IfOk result (IsReady (outside S.told source) task) }
    ensures stop { let settings = settings_shape settings in
        let task = SavesAgain file.entry.now checkpoint.entry.now settings in
        IfErr result (StopsTask (outside S.told source) task) }
    ensures reads { let settings = settings_shape settings in
        let task = SavesAgain file.entry.now checkpoint.entry.now settings in
        AsksInTurn (outside S.told source) (files_of task) }
{
    let workers = settings.workers;
    let saved = save_again(
        rt, alloc, file, checkpoint, settings, source, policies, gate,
    )?;
    Ok(left_for(rt, alloc, saved, workers)?)
}

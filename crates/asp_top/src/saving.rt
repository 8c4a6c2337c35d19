//! Runs that are saved where their budget runs out.

ghost use Rattle.std.specs.Prelude.{◌<◌, IfOk, IfErr};
ghost use Rattle.run_saves.specs.Saved.{IsSavedRun};
ghost use Rattle.command_line.specs.Task.{Saves};
ghost use Rattle.command_line.specs.Settings.{IsSettings};
ghost use Rattle.command_line.specs.Shapes.{settings_shape};
ghost use Rattle.asp_top.specs.Seen.{outside};
ghost use Rattle.asp_top.specs.Stops.{AsksOnce, IsSavedRunOf, StopsInFile, StopsTask, program_in};
ghost use Rattle.asp_top.specs.Ready.{IsReady};
ghost use Rattle.asp_top.specs.Resumed.{IsLeftOf};

use crate::letting_go::let_go;
use crate::prepare::{Prepared, report_for};
use crate::programs::program_of;
use crate::stop::Stop;
use asp_check::Checked;
use asp_edge::Source;
use code_reading::DecodeError;
use command_line::Settings;
use run_saves::{Saved, run_saved};
use std::alloc::{AllocError, Global};
use std::sync::Wait;
use std::thread::Threads;
use update_policy::Policies;
use worker_pool::{Gate, Settings as Racing};

/// The status of a run whose budget ran out.
const BUDGET_STATUS: u8 = 5;

// Runs the program as the settings ask, and writes its checkpoint where the budget runs out.
fn raced_and_saved<R: Threads + Wait + Sync, G: Gate>(
    rt: &R,
    alloc: Global,
    program: &Checked,
    settings: Settings,
    policies: Policies,
    gate: &G,
) -> Result<Saved, DecodeError>
    requires within { IsSettings (settings_shape settings) }
    ensures saved { IfOk result (IsSavedRun (program_in program.now) settings.budget) }
{
    let racing = Racing {
        workers: settings.workers,
        budget: settings.budget,
        plan: settings.plan,
    };
    run_saved(rt, alloc, program, racing, policies, gate)
}

// Runs the program in the file of this name, and writes its checkpoint where the budget runs out.
fn save_file<'a, R: Threads + Wait + Sync, S: Source, G: Gate>(
    rt: &R,
    alloc: Global,
    file: &'a str,
    settings: Settings,
    source: &mut S,
    policies: Policies,
    gate: &G,
) -> Result<Saved, Stop<'a>>
    requires within { IsSettings (settings_shape settings) }
    ensures ran { let name = file.entry.now in
        IfOk result (IsSavedRunOf (outside S.told source) name settings.budget) }
    ensures stop { IfErr result (StopsInFile (outside S.told source) file.entry.now) }
    ensures asked { AsksOnce (outside S.told source) file.entry.now }
{
    let checked = program_of(alloc, file, source)?;
    let saved = raced_and_saved(rt, alloc, &checked, settings, policies, gate);
    drop(checked);
    Ok(saved?)
}

/// What is left of a run by so many workers: its checkpoint, or its report without states.
pub fn left_for<R: Threads + Sync>(
    rt: &R,
    alloc: Global,
    saved: Saved,
    workers: u32,
) -> Result<Prepared, AllocError>
    requires some { 0 < workers }
    ensures left { IfOk result (IsLeftOf saved) }
{
    match saved {
        Saved::Stopped(pieces) => Ok(Prepared {
            status: BUDGET_STATUS,
            pieces,
        }),
        Saved::Ended(end) => {
            let report = report_for(alloc, &end, None);
            let_go(rt, alloc, end, workers);
            report
        }
    }
}

/// A run that is saved where its budget runs out, ready to be written.
pub fn prepare_save<'a, R: Threads + Wait + Sync, S: Source, G: Gate>(
    rt: &R,
    alloc: Global,
    file: &'a str,
    settings: Settings,
    source: &mut S,
    policies: Policies,
    gate: &G,
) -> Result<Prepared, Stop<'a>>
    requires within { IsSettings (settings_shape settings) }
    ensures answer { let task = Saves file.entry.now (settings_shape settings) in
        IfOk result (IsReady (outside S.told source) task) }
    ensures stop { let task = Saves file.entry.now (settings_shape settings) in
        IfErr result (StopsTask (outside S.told source) task) }
    ensures asked { AsksOnce (outside S.told source) file.entry.now }
{
    let workers = settings.workers;
    let saved = save_file(rt, alloc, file, settings, source, policies, gate)?;
    Ok(left_for(rt, alloc, saved, workers)?)
}

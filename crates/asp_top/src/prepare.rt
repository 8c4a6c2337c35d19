//! The work up to the writing, for each task: all pieces are made.

ghost use Rattle.std.specs.Prelude.{◌≡◌, ◌≤◌, IfOk, IfErr, codes, map, string_bytes};
ghost use Rattle.asp_model.specs.Report.{text_of, with_feed};
ghost use Rattle.asp_model.specs.Outcome.{exit_status};
ghost use Rattle.asp_model.specs.Shapes.{outcome_shape, tree_of};
ghost use Rattle.asp_core.specs.EndOfRun.{IsEndOfRun};
ghost use Rattle.def_paths.specs.Outcomes.{WholeOutcome};
ghost use Rattle.law_reports.specs.Depths.{report_to};
ghost use Rattle.run_ends.specs.Ends.{IsEndOf};
ghost use Rattle.run_report.specs.Rulings.{ruled_report};
ghost use Rattle.run_report.specs.Summary.{summary_of};
ghost use Rattle.run_traces.specs.Traced.{IsTracedRun};
ghost use Rattle.command_line.specs.Task.{Runs, Checks, Rules, Journals, Replays, Compares, Traces, Makes, IsWithin};
ghost use Rattle.command_line.specs.Settings.{IsSettings};
ghost use Rattle.command_line.specs.Shapes.{settings_shape, task_shape};
ghost use Rattle.asp_top.specs.Seen.{Outside, bytes_of, outside};
ghost use Rattle.asp_top.specs.Programs.{AsksInTurn, ReadsFiles, files_of};
ghost use Rattle.asp_top.specs.Stops.{AsksOnce, IsRunOf, IsTracedRunOf, StopsInFile, StopsTask, StopsWords};
ghost use Rattle.asp_top.specs.Ready.{IsReady, IsReadyFor, text_in};

use crate::comparing::compare_reports;
use crate::letting_go::let_go;
use crate::programs::{checked_in, program_of};
use crate::reports::end_in;
use crate::resuming::{prepare_resume, prepare_save_again};
use crate::saving::prepare_save;
use crate::stop::Stop;
use crate::traces::traced_in;
use asp_check::Checked;
use asp_edge::Source;
use asp_model::{MOST_PAIRS, MOST_REDUCTIONS, Outcome, Word, exit_number};
use command_line::{Settings, Task, read_words};
use load_gen::make;
use run_ends::RunEnd;
use run_report::{render, render_ruled, summarize};
use run_traces::{Traced, run_traced};
use std::alloc::{AllocError, Global};
use std::sync::Wait;
use std::thread::Threads;
use update_policy::Policies;
use worker_pool::{Gate, Settings as Racing, run};

/// A text that is ready to be written, piece by piece, and the status that goes with it.
#[derive(Drop)]
pub struct Prepared {
    pub status: u8,
    pub pieces: Vec<String>,
}

// Each line with its line feed.
fn with_feeds(alloc: Global, lines: Vec<Word>) -> Result<Vec<String>, AllocError>
    ensures { IfOk result (λ v. map string_bytes v.items ≡ map with_feed lines.items) }
{
    let mut pieces = Vec::new(alloc);
    for line in lines {
        let mut piece = line.into_string();
        piece.push_str("\n")?;
        pieces.push(piece)?;
    }
    Ok(pieces)
}

// The lines of an outcome, with its status.
fn text_for(alloc: Global, lines: Vec<Word>, outcome: &Outcome) -> Result<Prepared, AllocError>
    ensures text { IfOk result (λ p. text_in p ≡ text_of lines.items) }
    ensures status { IfOk result (λ p. p.status ≡ exit_status (outcome_shape outcome.now)) }
{
    Ok(Prepared {
        status: exit_number(outcome),
        pieces: with_feeds(alloc, lines)?,
    })
}

/// The report of the end of a run, with its status.
pub fn report_for(alloc: Global, end: &RunEnd, depth: Option<u32>) -> Result<Prepared, AllocError>
    ensures text { (o : WholeOutcome) → IsEndOf end.now o →
        IfOk result (λ p. text_in p ≡ report_to depth o) }
    ensures status { let shown = outcome_shape end.now.outcome in
        IfOk result (λ p. p.status ≡ exit_status shown) }
{
    text_for(alloc, render(alloc, end, depth)?, &end.outcome)
}

fn ruled_for(alloc: Global, end: &RunEnd) -> Result<Prepared, AllocError>
    ensures text { (o : WholeOutcome) → IsEndOf end.now o →
        IfOk result (λ p. text_in p ≡ ruled_report o) }
    ensures status { let shown = outcome_shape end.now.outcome in
        IfOk result (λ p. p.status ≡ exit_status shown) }
{
    text_for(alloc, render_ruled(alloc, end)?, &end.outcome)
}

fn summary_for(alloc: Global, pairs: u64, outcome: &Outcome) -> Result<Prepared, AllocError>
    ensures text { IfOk result (λ p. text_in p ≡ summary_of pairs (outcome_shape outcome.now)) }
    ensures status { IfOk result (λ p. p.status ≡ exit_status (outcome_shape outcome.now)) }
{
    text_for(alloc, summarize(alloc, pairs, outcome)?, outcome)
}

fn checked_text(alloc: Global) -> Result<Prepared, AllocError>
    ensures text { IfOk result (λ p. text_in p ≡ with_feed (codes "checked")) }
    ensures status { IfOk result (λ p. p.status ≡ 0) }
{
    let mut pieces = Vec::new(alloc);
    pieces.push(String::from_str(alloc, "checked\n")?)?;
    Ok(Prepared { status: 0, pieces })
}

// Runs the program as the settings ask.
fn raced<R: Threads + Wait + Sync, G: Gate>(
    rt: &R,
    alloc: Global,
    program: &Checked,
    settings: Settings,
    policies: Policies,
    gate: &G,
) -> Result<RunEnd, AllocError>
    requires within { IsSettings (settings_shape settings) }
    ensures end { IfOk result (IsEndOfRun (tree_of program.now.program.root) settings.budget) }
{
    let racing = Racing {
        workers: settings.workers,
        budget: settings.budget,
        plan: settings.plan,
    };
    run(rt, alloc, program, racing, policies, gate)
}

// Runs the program in the file of this name.
fn run_file<'a, R: Threads + Wait + Sync, S: Source, G: Gate>(
    rt: &R,
    alloc: Global,
    file: &'a str,
    settings: Settings,
    source: &mut S,
    policies: Policies,
    gate: &G,
) -> Result<RunEnd, Stop<'a>>
    requires within { IsSettings (settings_shape settings) }
    ensures ran { let name = file.entry.now in
        IfOk result (IsRunOf (outside S.told source) name settings.budget) }
    ensures stop { IfErr result (StopsInFile (outside S.told source) file.entry.now) }
    ensures asked { AsksOnce (outside S.told source) file.entry.now }
{
    let checked = program_of(alloc, file, source)?;
    let end = raced(rt, alloc, &checked, settings, policies, gate);
    drop(checked);
    Ok(end?)
}

fn prepare_run<'a, R: Threads + Wait + Sync, S: Source, G: Gate>(
    rt: &R,
    alloc: Global,
    file: &'a str,
    settings: Settings,
    depth: Option<u32>,
    source: &mut S,
    policies: Policies,
    gate: &G,
) -> Result<Prepared, Stop<'a>>
    requires within { IsSettings (settings_shape settings) }
    ensures answer { let task = Runs file.entry.now (settings_shape settings) depth in
        IfOk result (IsReady (outside S.told source) task) }
    ensures stop { let task = Runs file.entry.now (settings_shape settings) depth in
        IfErr result (StopsTask (outside S.told source) task) }
    ensures asked { AsksOnce (outside S.told source) file.entry.now }
{
    let workers = settings.workers;
    let end = run_file(rt, alloc, file, settings, source, policies, gate)?;
    let report = report_for(alloc, &end, depth);
    let_go(rt, alloc, end, workers);
    Ok(report?)
}

fn prepare_ruled<'a, R: Threads + Wait + Sync, S: Source, G: Gate>(
    rt: &R,
    alloc: Global,
    file: &'a str,
    settings: Settings,
    source: &mut S,
    policies: Policies,
    gate: &G,
) -> Result<Prepared, Stop<'a>>
    requires within { IsSettings (settings_shape settings) }
    ensures answer { let task = Rules file.entry.now (settings_shape settings) in
        IfOk result (IsReady (outside S.told source) task) }
    ensures stop { let task = Rules file.entry.now (settings_shape settings) in
        IfErr result (StopsTask (outside S.told source) task) }
    ensures asked { AsksOnce (outside S.told source) file.entry.now }
{
    let workers = settings.workers;
    let end = run_file(rt, alloc, file, settings, source, policies, gate)?;
    let report = ruled_for(alloc, &end);
    let_go(rt, alloc, end, workers);
    Ok(report?)
}

// Runs the program as the settings ask, and writes what its core did.
fn raced_with_trace<R: Threads + Wait + Sync, G: Gate>(
    rt: &R,
    alloc: Global,
    program: &Checked,
    settings: Settings,
    policies: Policies,
    gate: &G,
) -> Result<Traced, AllocError>
    requires within { IsSettings (settings_shape settings) }
    ensures traced { let term = tree_of program.now.program.root in
        IfOk result (IsTracedRun term settings.budget) }
{
    let racing = Racing {
        workers: settings.workers,
        budget: settings.budget,
        plan: settings.plan,
    };
    run_traced(rt, alloc, program, racing, policies, gate)
}

// Runs the program in the file of this name, and writes what its core did.
fn trace_file<'a, R: Threads + Wait + Sync, S: Source, G: Gate>(
    rt: &R,
    alloc: Global,
    file: &'a str,
    settings: Settings,
    source: &mut S,
    policies: Policies,
    gate: &G,
) -> Result<Traced, Stop<'a>>
    requires within { IsSettings (settings_shape settings) }
    ensures ran { let name = file.entry.now in
        IfOk result (IsTracedRunOf (outside S.told source) name settings.budget) }
    ensures stop { IfErr result (StopsInFile (outside S.told source) file.entry.now) }
    ensures asked { AsksOnce (outside S.told source) file.entry.now }
{
    let checked = program_of(alloc, file, source)?;
    let traced = raced_with_trace(rt, alloc, &checked, settings, policies, gate);
    drop(checked);
    Ok(traced?)
}

fn prepare_journal<'a, R: Threads + Wait + Sync, S: Source, G: Gate>(
    rt: &R,
    alloc: Global,
    file: &'a str,
    settings: Settings,
    source: &mut S,
    policies: Policies,
    gate: &G,
) -> Result<Prepared, Stop<'a>>
    requires within { IsSettings (settings_shape settings) }
    ensures answer { let task = Journals file.entry.now (settings_shape settings) in
        IfOk result (IsReady (outside S.told source) task) }
    ensures stop { let task = Journals file.entry.now (settings_shape settings) in
        IfErr result (StopsTask (outside S.told source) task) }
    ensures asked { AsksOnce (outside S.told source) file.entry.now }
{
    let workers = settings.workers;
    let traced = trace_file(rt, alloc, file, settings, source, policies, gate)?;
    let Traced { pieces, end } = traced;
    let status = exit_number(&end.outcome);
    let_go(rt, alloc, end, workers);
    Ok(Prepared { status, pieces })
}

fn prepare_check<'a, S: Source>(
    alloc: Global,
    file: &'a str,
    source: &mut S,
) -> Result<Prepared, Stop<'a>>
    ensures answer { IfOk result (IsReady (outside S.told source) (Checks file.entry.now)) }
    ensures stop { IfErr result (StopsTask (outside S.told source) (Checks file.entry.now)) }
    ensures asked { AsksOnce (outside S.told source) file.entry.now }
{
    drop(program_of(alloc, file, source)?);
    Ok(checked_text(alloc)?)
}

fn prepare_replay<'a, S: Source>(
    alloc: Global,
    file: &'a str,
    report: &'a str,
    depth: Option<u32>,
    source: &mut S,
) -> Result<Prepared, Stop<'a>>
    ensures answer { let task = Replays file.entry.now report.entry.now depth in
        IfOk result (IsReady (outside S.told source) task) }
    ensures stop { let task = Replays file.entry.now report.entry.now depth in
        IfErr result (StopsTask (outside S.told source) task) }
    ensures reads { let task = Replays file.entry.now report.entry.now depth in
        AsksInTurn (outside S.told source) (files_of task) }
{
    let checked = program_of(alloc, file, source)?;
    let end = end_in(alloc, &checked, report, source);
    drop(checked);
    Ok(report_for(alloc, &end?, depth)?)
}

fn prepare_compare<'a, S: Source>(
    alloc: Global,
    file: &'a str,
    report: &'a str,
    other: &'a str,
    source: &mut S,
) -> Result<Prepared, Stop<'a>>
    ensures answer { let task = Compares file.entry.now report.entry.now other.entry.now in
        IfOk result (IsReady (outside S.told source) task) }
    ensures stop { let task = Compares file.entry.now report.entry.now other.entry.now in
        IfErr result (StopsTask (outside S.told source) task) }
    ensures reads { let task = Compares file.entry.now report.entry.now other.entry.now in
        AsksInTurn (outside S.told source) (files_of task) }
{
    let checked = program_of(alloc, file, source)?;
    let compared = compare_reports(alloc, &checked, report, other, source);
    drop(checked);
    compared
}

fn prepare_trace<'a, S: Source>(
    alloc: Global,
    file: &'a str,
    trace: &'a str,
    budget: u64,
    depth: Option<u32>,
    source: &mut S,
) -> Result<Prepared, Stop<'a>>
    requires within { budget ≤ MOST_REDUCTIONS }
    ensures answer { let task = Traces file.entry.now trace.entry.now budget depth in
        IfOk result (IsReady (outside S.told source) task) }
    ensures stop { let task = Traces file.entry.now trace.entry.now budget depth in
        IfErr result (StopsTask (outside S.told source) task) }
    ensures reads { let task = Traces file.entry.now trace.entry.now budget depth in
        AsksInTurn (outside S.told source) (files_of task) }
{
    let checked = program_of(alloc, file, source)?;
    let ended = traced_in(alloc, &checked, trace, budget, source);
    drop(checked);
    Ok(report_for(alloc, &ended?, depth)?)
}

fn prepare_made<'a, R: Threads + Wait + Sync, G: Gate>(
    rt: &R,
    alloc: Global,
    pairs: u64,
    settings: Settings,
    policies: Policies,
    gate: &G,
) -> Result<Prepared, Stop<'a>>
    requires least { 1 ≤ pairs }
    requires most { pairs ≤ MOST_PAIRS }
    requires within { IsSettings (settings_shape settings) }
    ensures answer { let task = Makes pairs (settings_shape settings) in
        (o : Outside) → IfOk result (IsReady o task) }
    ensures stop { let task = Makes pairs (settings_shape settings) in
        (o : Outside) → IfErr result (StopsTask o task) }
{
    let text = make(alloc, pairs)?;
    let program = checked_in(alloc, text.as_bytes())?;
    let end = raced(rt, alloc, &program, settings, policies, gate);
    drop(program);
    let end = end?;
    Ok(summary_for(alloc, pairs, &end.outcome)?)
}

fn prepare_task<'a, R: Threads + Wait + Sync, S: Source, G: Gate>(
    rt: &R,
    alloc: Global,
    task: Task<'a>,
    source: &mut S,
    policies: Policies,
    gate: &G,
) -> Result<Prepared, Stop<'a>>
    requires within { IsWithin (task_shape task) }
    ensures answer { IfOk result (IsReady (outside S.told source) (task_shape task.entry)) }
    ensures stop { IfErr result (StopsTask (outside S.told source) (task_shape task.entry)) }
    ensures reads { AsksInTurn (outside S.told source) (files_of (task_shape task.entry)) }
{
    match task {
        Task::Run {
            file,
            settings,
            depth,
        } => prepare_run(rt, alloc, file, settings, depth, source, policies, gate),
        Task::Check { file } => prepare_check(alloc, file, source),
        Task::Rule { file, settings } => {
            prepare_ruled(rt, alloc, file, settings, source, policies, gate)
        }
        Task::Journal { file, settings } => {
            prepare_journal(rt, alloc, file, settings, source, policies, gate)
        }
        Task::Save { file, settings } => {
            prepare_save(rt, alloc, file, settings, source, policies, gate)
        }
        Task::Resume {
            file,
            checkpoint,
            settings,
            depth,
        } => prepare_resume(
            rt, alloc, file, checkpoint, settings, depth, source, policies, gate,
        ),
        Task::SaveAgain {
            file,
            checkpoint,
            settings,
        } => prepare_save_again(
            rt, alloc, file, checkpoint, settings, source, policies, gate,
        ),
        Task::Replay {
            file,
            report,
            depth,
        } => prepare_replay(alloc, file, report, depth, source),
        Task::Compare {
            file,
            report,
            other,
        } => prepare_compare(alloc, file, report, other, source),
        Task::Trace {
            file,
            trace,
            budget,
            depth,
        } => prepare_trace(alloc, file, trace, budget, depth, source),
        Task::Make { pairs, settings } => prepare_made(rt, alloc, pairs, settings, policies, gate),
    }
}

/// What the words ask for, ready to be written. The words come first, then the program's file, its
/// reading and its check, and the run, or each report's file and its replay, or the trace's or the
/// checkpoint's file and its run; the first refusal in this order ends the work.
pub fn prepare<'a, R: Threads + Wait + Sync, S: Source, G: Gate>(
    rt: &R,
    alloc: Global,
    words: &'a [String],
    source: &mut S,
    policies: Policies,
    gate: &G,
) -> Result<Prepared, Stop<'a>>
    ensures answer { IfOk result (IsReadyFor words.entry.now (outside S.told source)) }
    ensures stop { IfErr result (StopsWords words.entry.now (outside S.told source)) }
    ensures reads { ReadsFiles (bytes_of words.entry.now) (outside S.told source) }
{
    let task = read_words(alloc, words)?;
    prepare_task(rt, alloc, task, source, policies, gate)
}

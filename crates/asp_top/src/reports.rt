//! The reports that are replayed.

ghost use Rattle.std.specs.Prelude.{◌≡◌, ◌≤◌, IfOk, IfErr};
ghost use Rattle.asp_top.specs.Seen.{outside};
ghost use Rattle.asp_top.specs.Stops.{AsksOnce, program_in};
ghost use Rattle.asp_top.specs.Replayed.{IsEndIn, IsReplayable, IsServicesIn, StopsInReplay, StopsInReport};
ghost use Rattle.asp_top.specs.declared.stop.Which.TheVariants.{First};

use crate::stop::{Stop, Which};
use asp_check::Checked;
use asp_edge::{ReadError, Source};
use asp_model::{Counts, Lists, MOST_REPORT_BYTES};
use replay_one::replay;
use replay_services::{ServicesRun, replay_services};
use run_ends::RunEnd;
use sender_log::read_report;
use std::alloc::Global;

// The logs and counts that the report in the file of this name shows.
fn lists_of<'a, S: Source>(
    alloc: Global,
    which: Which,
    name: &'a str,
    source: &mut S,
) -> Result<(Lists, Counts), Stop<'a>>
    ensures log { IfOk result (IsReplayable (outside S.told source) name.entry.now) }
    ensures stop { IfErr result (StopsInReport (outside S.told source) which name.entry.now) }
    ensures asked { AsksOnce (outside S.told source) name.entry.now }
    ensures same { (S.told source.new).content ≡ (S.told source.old).content }
    ensures later { (S.told source.old).faults ≤ (S.told source.new).faults }
{
    match source.read(name, MOST_REPORT_BYTES) {
        Ok(bytes) => match read_report(alloc, &bytes) {
            Ok(log) => Ok(log),
            Err(error) => Err(Stop::of_log(which, error)),
        },
        Err(ReadError::Failed) => Err(Stop::Unread(name)),
        Err(ReadError::TooLong { taken: _ }) => Err(Stop::LongReport(which)),
        Err(ReadError::Memory) => Err(Stop::Memory),
    }
}

/// The end of the replay of the report in the file of this name.
pub fn end_in<'a, S: Source>(
    alloc: Global,
    program: &Checked,
    name: &'a str,
    source: &mut S,
) -> Result<RunEnd, Stop<'a>>
    ensures end { let program = program_in program.now in
        IfOk result (IsEndIn (outside S.told source) name.entry.now program) }
    ensures stop { let program = program_in program.now in
        IfErr result (StopsInReplay (outside S.told source) First name.entry.now program) }
    ensures asked { AsksOnce (outside S.told source) name.entry.now }
{
    let (lists, counts) = lists_of(alloc, Which::First, name, source)?;
    let end = replay(alloc, program, &lists, &counts);
    drop((lists, counts));
    match end {
        Ok(end) => Ok(end),
        Err(stop) => Err(Stop::of_replay(Which::First, stop)),
    }
}

/// That replay of one of two reports, with what its services could take.
pub fn services_in<'a, S: Source>(
    alloc: Global,
    program: &Checked,
    which: Which,
    name: &'a str,
    source: &mut S,
) -> Result<ServicesRun, Stop<'a>>
    ensures run { let program = program_in program.now in
        IfOk result (IsServicesIn (outside S.told source) name.entry.now program) }
    ensures stop { let program = program_in program.now in
        IfErr result (StopsInReplay (outside S.told source) which name.entry.now program) }
    ensures asked { AsksOnce (outside S.told source) name.entry.now }
    ensures same { (S.told source.new).content ≡ (S.told source.old).content }
    ensures later { (S.told source.old).faults ≤ (S.told source.new).faults }
{
    let (lists, counts) = lists_of(alloc, which, name, source)?;
    let run = replay_services(alloc, program, &lists, &counts);
    drop((lists, counts));
    match run {
        Ok(run) => Ok(run),
        Err(stop) => Err(Stop::of_replay(which, stop)),
    }
}

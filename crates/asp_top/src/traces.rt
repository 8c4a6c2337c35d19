//! The trace that is checked.

ghost use Rattle.std.specs.Prelude.{◌≡◌, IfOk, IfErr, map};
ghost use Rattle.asp_model.specs.Shapes.{entry_shape, tree_of};
ghost use Rattle.asp_top.specs.Seen.{outside};
ghost use Rattle.asp_top.specs.Programs.{HasTrace};
ghost use Rattle.asp_top.specs.Stops.{AsksOnce};
ghost use Rattle.asp_top.specs.Traced.{IsTracedEnd, StopsInRun, StopsInTrace};

use crate::stop::Stop;
use asp_check::Checked;
use asp_edge::{ReadError, Source};
use asp_model::{Entry, MOST_TRACE_BYTES};
use run_ends::RunEnd;
use std::alloc::Global;
use trace_check::check_trace;
use trace_text::read_trace;

// The entries of the trace in the file of this name.
fn entries_of<'a, S: Source>(
    alloc: Global,
    name: &'a str,
    source: &mut S,
) -> Result<Vec<Entry>, Stop<'a>>
    ensures entries { let o = outside S.told source in
        IfOk result (λ v. HasTrace o 0 name.entry.now (map entry_shape v.items)) }
    ensures stop { IfErr result (StopsInTrace (outside S.told source) name.entry.now) }
    ensures asked { AsksOnce (outside S.told source) name.entry.now }
{
    match source.read(name, MOST_TRACE_BYTES) {
        Ok(bytes) => Ok(read_trace(alloc, &bytes)?),
        Err(ReadError::Failed) => Err(Stop::Unread(name)),
        Err(ReadError::TooLong { taken: _ }) => Err(Stop::LongTrace),
        Err(ReadError::Memory) => Err(Stop::Memory),
    }
}

/// The end of the run of the trace in the file of this name, from a budget.
pub fn traced_in<'a, S: Source>(
    alloc: Global,
    program: &Checked,
    name: &'a str,
    budget: u64,
    source: &mut S,
) -> Result<RunEnd, Stop<'a>>
    ensures end { let term = tree_of program.now.program.root in
        IfOk result (IsTracedEnd (outside S.told source) name.entry.now term budget) }
    ensures stop { let term = tree_of program.now.program.root in
        IfErr result (StopsInRun (outside S.told source) name.entry.now term budget) }
    ensures asked { AsksOnce (outside S.told source) name.entry.now }
{
    let entries = entries_of(alloc, name, source)?;
    Ok(check_trace(alloc, program, budget, &entries)?)
}

//! The program that is run: read and checked.

ghost use Rattle.std.specs.Prelude.{◌≡◌, ◌≤◌, IfOk, IfErr};
ghost use Rattle.asp_top.specs.Seen.{outside};
ghost use Rattle.asp_top.specs.Programs.{IsProgramOf};
ghost use Rattle.asp_top.specs.Stops.{AsksOnce, IsCheckedFile, StopsAt, StopsInFile, program_in};

use crate::stop::Stop;
use asp_check::{Checked, check};
use asp_edge::{ReadError, Source};
use asp_model::MOST_PROGRAM_BYTES;
use asp_syntax::read_program;
use std::alloc::Global;

/// The checked program that the bytes are.
pub fn checked_in<'a>(alloc: Global, bytes: &[u8]) -> Result<Checked, Stop<'a>>
    ensures checked { IfOk result (λ c. IsProgramOf bytes.now (program_in c)) }
    ensures stop { IfErr result (StopsAt bytes.now) }
{
    let program = read_program(alloc, bytes)?;
    Ok(check(alloc, program)?)
}

/// The checked program in the file of this name.
pub fn program_of<'a, S: Source>(
    alloc: Global,
    name: &'a str,
    source: &mut S,
) -> Result<Checked, Stop<'a>>
    ensures program { IfOk result (IsCheckedFile (outside S.told source) name.entry.now) }
    ensures stop { IfErr result (StopsInFile (outside S.told source) name.entry.now) }
    ensures asked { AsksOnce (outside S.told source) name.entry.now }
    ensures same { (S.told source.new).content ≡ (S.told source.old).content }
    ensures later { (S.told source.old).faults ≤ (S.told source.new).faults }
{
    match source.read(name, MOST_PROGRAM_BYTES) {
        Ok(bytes) => checked_in(alloc, &bytes),
        Err(ReadError::Failed) => Err(Stop::Unread(name)),
        Err(ReadError::TooLong { taken: _ }) => Err(Stop::LongProgram),
        Err(ReadError::Memory) => Err(Stop::Memory),
    }
}

//! What is read for a task: the program in a file, and reports of it.

ghost use Rattle.std.specs.Prelude.{◌≤◌, ◌∷◌, [], IfErr, IfNone, IfOk, IfSome, Ok as Gave};
ghost use Rattle.asp_explain.specs.Refusals.{refusal_of};
ghost use Rattle.asp_explain.specs.Seen.{Asked, outside};
ghost use Rattle.asp_explain.specs.Given.{HasFault, IsLoaded, IsProgramOf, IsReportIn, StopsAtFile, StopsAtReport, StopsLoading, program_in};

use crate::answer::{Answer, told};
use crate::stop::{Stop, Which};
use asp_check::{CheckError, Checked, check};
use asp_edge::{ReadError, Source};
use asp_model::{Counts, Lists, MOST_PROGRAM_BYTES, MOST_REPORT_BYTES};
use asp_syntax::{SyntaxError, read_program};
use sender_log::read_report;
use std::alloc::{AllocError, Global};

/// A program and a report of it.
#[derive(Drop)]
pub struct Given<'a> {
    /// The name of the program's file.
    pub file: &'a str,
    /// The text of the program.
    pub bytes: Vec<u8>,
    pub program: Checked,
    /// What the report reads as. It can be replayed.
    pub lists: Lists,
    pub counts: Counts,
}

impl Given<'_> {
    /// It is not needed any more: who calls this need not prove its drop.
    pub fn discard(self) {
        drop(self);
    }
}

/// What two files have.
#[derive(Drop)]
pub enum Loaded<'a> {
    /// The first is no checked program, and this is told of it.
    Faulty(Answer),
    Given(Given<'a>),
}

/// The bytes of the file of a program.
pub fn bytes_in<'a, S: Source>(file: &'a str, source: &mut S) -> Result<Vec<u8>, Stop<'a>>
    ensures bytes { let o = outside S.told source in let name = file.entry.now in
        IfOk result (λ v. Asked o ((name, Gave v.items) ∷ [])) }
    ensures stop { IfErr result
        (λ s. StopsAtFile (outside S.told source) file.entry.now (refusal_of s)) }
    ensures later { (S.told source.old).faults ≤ (S.told source.new).faults }
{
    match source.read(file, MOST_PROGRAM_BYTES) {
        Ok(bytes) => Ok(bytes),
        Err(ReadError::Failed) => Err(Stop::Unread(file)),
        Err(ReadError::TooLong { taken: _ }) => Err(Stop::TooLong),
        Err(ReadError::Memory) => Err(Stop::Memory),
    }
}

// The program that the bytes are, if it is checked.
fn checked_in(alloc: Global, bytes: &[u8]) -> Result<Option<Checked>, AllocError>
    ensures checked { IfOk result
        (λ o. IfSome o (λ c. IsProgramOf bytes.now (program_in c))) }
    ensures fault { IfOk result (λ o. IfNone o (HasFault bytes.now)) }
{
    match read_program(alloc, bytes) {
        Ok(program) => match check(alloc, program) {
            Ok(checked) => Ok(Some(checked)),
            Err(CheckError::Fault(_)) => Ok(None),
            Err(CheckError::Memory) => Err(AllocError),
        },
        Err(SyntaxError::Fault(_)) => Ok(None),
        Err(SyntaxError::Memory) => Err(AllocError),
    }
}

/// The logs and counts that the report in the file of this name shows.
pub fn lists_of<'a, S: Source>(
    alloc: Global,
    which: Which,
    name: &'a str,
    source: &mut S,
) -> Result<(Lists, Counts), Stop<'a>>
    ensures log { IfOk result (IsReportIn (outside S.told source) name.entry.now) }
    ensures stop { IfErr result (λ s. StopsAtReport (outside S.told source) []
        which name.entry.now (refusal_of s)) }
    ensures later { (S.told source.old).faults ≤ (S.told source.new).faults }
{
    match source.read(name, MOST_REPORT_BYTES) {
        Ok(bytes) => match read_report(alloc, &bytes) {
            Ok(log) => Ok(log),
            Err(error) => Err(Stop::of_log(which, error)),
        },
        Err(ReadError::Failed) => Err(Stop::Unread(name)),
        Err(ReadError::TooLong { taken: _ }) => Err(Stop::LongReport(which)),
        Err(ReadError::Memory) => Err(Stop::Memory),
    }
}

/// The program in one file, and the report in another; or what there is to tell of a program that
/// has a fault, in which case no report is read.
pub fn load<'a, S: Source>(
    alloc: Global,
    file: &'a str,
    report: &'a str,
    source: &mut S,
) -> Result<Loaded<'a>, Stop<'a>>
    ensures loaded { IfOk result
        (IsLoaded (outside S.told source) file.entry.now report.entry.now) }
    ensures stop { IfErr result (λ s. StopsLoading (outside S.told source)
        file.entry.now report.entry.now (refusal_of s)) }
    ensures later { (S.told source.old).faults ≤ (S.told source.new).faults }
{
    let bytes = bytes_in(file, source)?;
    match checked_in(alloc, &bytes)? {
        Some(program) => match lists_of(alloc, Which::First, report, source) {
            Ok((lists, counts)) => Ok(Loaded::Given(Given {
                file,
                bytes,
                program,
                lists,
                counts,
            })),
            Err(stop) => {
                drop(program);
                Err(stop)
            }
        },
        None => Ok(Loaded::Faulty(told(alloc, file, &bytes)?)),
    }
}

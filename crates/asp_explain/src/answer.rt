//! What a call tells, up to the writing.

ghost use Rattle.std.specs.Prelude.{◌≡◌, IfOk, IfErr, string_bytes};
ghost use Rattle.asp_explain.specs.Refusals.{refusal_of, status_of as status_of_fault};
ghost use Rattle.asp_explain.specs.Seen.{bytes_of, outside};
ghost use Rattle.asp_explain.specs.Shapes.{task_shape};
ghost use Rattle.asp_explain.specs.Given.{IsToldWith, StopsAtFile, TellsFile};
ghost use Rattle.asp_explain.specs.Endings.{Answers, IsCause, StopsTask, Tells};

use crate::loading::bytes_in;
use crate::of_events::of_events;
use crate::of_other::of_other;
use crate::of_picture::of_picture;
use crate::of_run::of_run;
use crate::of_until::of_until;
use crate::stop::Stop;
use crate::task::{Task, Wanted, read_words};
use asp_edge::Source;
use explain::{Fault, tell};
use std::alloc::{AllocError, Global};

/// A text that is ready to be written, and the status that goes with it.
#[derive(Drop)]
pub struct Answer {
    pub status: u8,
    pub text: Vec<u8>,
}

/// What the words ask to be told.
pub fn answer_of<'a, S: Source>(
    alloc: Global,
    words: &'a [String],
    source: &mut S,
) -> Result<Answer, Stop<'a>>
    ensures answer { IfOk result (λ a. Answers (bytes_of words.entry.now)
        (outside S.told source) a.text.items a.status) }
    ensures stop { IfErr result (λ s. IsCause (bytes_of words.entry.now)
        (outside S.told source) (refusal_of s)) }
{
    match read_words(alloc, words) {
        Ok(Wanted::Told(task)) => of_task(alloc, task, source),
        Ok(Wanted::Help(text)) => Ok(of_help(alloc, &text)?),
        Err(stop) => Err(stop),
    }
}

// What a task asks to be told.
fn of_task<'a, S: Source>(alloc: Global, task: Task<'a>, source: &mut S) -> Result<Answer, Stop<'a>>
    ensures answer { IfOk result (λ a. Tells (outside S.told source)
        (task_shape task.entry) a.text.items a.status) }
    ensures stop { IfErr result (λ s. StopsTask (outside S.told source)
        (task_shape task.entry) (refusal_of s)) }
{
    match task {
        Task::File { file } => of_file(alloc, file, source),
        Task::Run { file, report } => of_run(alloc, file, report, source),
        Task::Events { file, report, page } => of_events(alloc, file, report, page, source),
        Task::Other {
            file,
            report,
            other,
            picture,
        } => of_other(alloc, file, report, other, picture, source),
        Task::Picture { file, report, page } => of_picture(alloc, file, report, page, source),
        Task::Until {
            file,
            report,
            activity,
            count,
        } => of_until(alloc, file, report, activity, count, source),
    }
}

fn of_file<'a, S: Source>(alloc: Global, file: &'a str, source: &mut S) -> Result<Answer, Stop<'a>>
    ensures answer { IfOk result
        (λ a. TellsFile (outside S.told source) file.entry.now a.text.items a.status) }
    ensures stop { IfErr result
        (λ s. StopsAtFile (outside S.told source) file.entry.now (refusal_of s)) }
{
    let bytes = bytes_in(file, source)?;
    Ok(told(alloc, file, &bytes)?)
}

/// What there is to tell of these bytes.
pub fn told(alloc: Global, file: &str, bytes: &[u8]) -> Result<Answer, AllocError>
    ensures { IfOk result (λ a. IsToldWith file.now bytes.now a.text.items a.status) }
{
    let told = tell(alloc, file, bytes)?;
    Ok(Answer {
        status: status_of(&told.fault),
        text: told.text,
    })
}

fn status_of(fault: &Option<Fault>) -> u8
    ensures { result ≡ status_of_fault fault.now }
{
    explain_writing::status_of(fault.is_some())
}

/// A text that tells something.
pub fn answer_with(text: String) -> Answer
    ensures status { result.status ≡ 0 }
    ensures text { result.text.items ≡ string_bytes text }
{
    Answer {
        status: 0,
        text: text.into_bytes(),
    }
}

fn of_help(alloc: Global, text: &String) -> Result<Answer, AllocError>
    ensures { IfOk result (λ a. a.status ≡ 0) }
{
    let mut bytes = Vec::new(alloc);
    bytes.extend_from_slice(text.as_bytes())?;
    Ok(Answer {
        status: 0,
        text: bytes,
    })
}

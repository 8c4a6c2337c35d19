//! What is kept of an event.

ghost use Rattle.std.specs.Prelude.{◌≡◌, IfOk, option_map};
ghost use Rattle.std.specs.Option.{option_copied};
ghost use Rattle.asp_model.specs.Shapes.{future_shape, line_shape};
ghost use Rattle.serve_rules.specs.Labels.{label_text};
ghost use Rattle.run_waits.specs.Books.{newest, or_blank, request_of};
ghost use Rattle.explain.specs.Events.{what_of as told_of};
ghost use Rattle.explain.specs.EventsHeard.{event_told, what_shape};

use asp_model::{ActivityName, Fault, FutureName, Label, Line};
use replay_one::Event;
use run_waits::{Asked, Book};
use std::alloc::{AllocError, Global};

/// What an activity does.
#[derive(Drop)]
pub enum What {
    Creates(ActivityName),
    /// A request comes to the activity of this name.
    Sends(ActivityName, Asked),
    Serves(Option<Asked>),
    /// The request with this label has its answer.
    Answers(Option<Label>, FutureName),
    /// It asks what is pending.
    Polls,
    Prints(Line),
    /// It stands at this fault when the run is over.
    Fails(Fault),
}

/// Who does what, after how many of its reductions.
#[derive(Drop)]
pub struct RunEvent {
    pub by: ActivityName,
    pub count: u64,
    /// The byte of the text at which it stands before that; none where it answers.
    pub at: Option<usize>,
    pub what: What,
}

// A request with this label and this future.
fn asked_of(alloc: Global, label: &Label, future: &FutureName) -> Result<Asked, AllocError>
    ensures asked { IfOk result
        (λ a. request_of a ≡ (label.now.text, future_shape future.now)) }
{
    Ok(Asked {
        label: label.copy(alloc)?,
        future: future.copy(alloc)?,
    })
}

/// What an event tells, of one whose requests these are after it.
pub fn what_of(alloc: Global, event: Event, book: Option<&Book>) -> Result<Option<What>, AllocError>
    ensures { let b = or_blank (option_copied book.entry) in
        IfOk result (λ o. option_map what_shape o ≡ told_of b (event_told event.entry)) }
{
    match event {
        Event::Made(made) => Ok(Some(What::Creates(made.copy(alloc)?))),
        Event::Sent(to, label, future) => {
            let to = to.copy(alloc)?;
            Ok(Some(What::Sends(to, asked_of(alloc, label, future)?)))
        }
        Event::Served(_) => Ok(Some(What::Serves(newest_of(alloc, book)?))),
        Event::Answered(future) => {
            let label = answered_by(alloc, book)?;
            Ok(Some(What::Answers(label, future.copy(alloc)?)))
        }
        Event::Polled => Ok(Some(What::Polls)),
        Event::Printed(line) => Ok(Some(What::Prints(copy_line(alloc, line)?))),
        Event::Faulted(fault) => Ok(Some(What::Fails(fault))),
        Event::Standing(_) => Ok(None),
    }
}

// The request that is served newest.
fn newest_of(alloc: Global, book: Option<&Book>) -> Result<Option<Asked>, AllocError>
    ensures { let b = or_blank (option_copied book.entry) in
        IfOk result (λ o. option_map request_of o ≡ newest b.serving) }
{
    let Some(book) = book else {
        return Ok(None);
    };
    match book.serving.last() {
        Some(asked) => Ok(Some(asked_of(alloc, &asked.label, &asked.future)?)),
        None => Ok(None),
    }
}

// The label of the request that was answered last.
fn answered_by(alloc: Global, book: Option<&Book>) -> Result<Option<Label>, AllocError>
    ensures { let b = or_blank (option_copied book.entry) in
        IfOk result (λ o. option_map label_text o ≡ option_map (λ q. q.0) b.answered) }
{
    let Some(book) = book else {
        return Ok(None);
    };
    match &book.answered {
        Some(asked) => Ok(Some(asked.label.copy(alloc)?)),
        None => Ok(None),
    }
}

/// The same line.
pub fn copy_line(alloc: Global, line: &Line) -> Result<Line, AllocError>
    ensures line { IfOk result (λ l. line_shape l ≡ line_shape line.now) }
{
    match line {
        Line::Number(number) => Ok(Line::Number(*number)),
        Line::Text(text) => Ok(Line::Text(text.copy(alloc)?)),
    }
}

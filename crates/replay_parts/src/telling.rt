//! A listener is told of a service, of what a step gives to others, of lines, and of where an activity
//! stands.

ghost use Rattle.std.specs.Prelude.{◌≡◌, ◌++◌, List, OnOk, drop, map};
ghost use Rattle.asp_model.specs.Configuration as model;
ghost use Rattle.asp_model.specs.Intent.{Effect};
ghost use Rattle.step_activity.specs.Effects.{IsGiven};
ghost use Rattle.law_steps.specs.Waking.{labels_wanted};
ghost use Rattle.serve_rules.specs.Wanted.{wanted_labels};
ghost use Rattle.asp_model.specs.Shapes.{line_shape, status_shape};
ghost use Rattle.replay_parts.specs.Notes.{NoteShape, Printed, faulted_by, given_by, noted_as, places_by, served_by};

use crate::notes::{Event, Note, Notes};
use asp_model::{ActivityName, Line, Status};
use serve_rules::Wanted;
use std::alloc::AllocError;
use step_activity::Given;

/// What is known of an activity before it takes its step: how many reductions it took, the byte of
/// the text at which it stands, and how many lines it printed.
#[derive(Clone, Copy)]
pub struct Known {
    pub count: u64,
    pub at: Option<usize>,
    pub lines: usize,
}

/// It is told of a service, where labels are asked for.
pub fn tell_service<N: Notes>(
    by: &ActivityName,
    count: u64,
    at: Option<usize>,
    wanted: Wanted,
    notes: &mut N,
) -> Result<(), AllocError>
    ensures told { (xs : List NoteShape) (a : model.Activity) → N.tells notes.old xs →
        count ≡ a.reductions → wanted_labels wanted.entry ≡ labels_wanted a →
        let events = served_by (labels_wanted a) in
        OnOk result (N.tells notes.new (xs ++ map (noted_as by.now a.reductions) events)) }
{
    if !wanted.asks() {
        return Ok(());
    }
    notes.note(Note {
        by,
        count,
        at,
        event: Event::Served(wanted),
    })
}

/// It is told of what a step gives to others.
pub fn tell_given<N: Notes>(
    by: &ActivityName,
    count: u64,
    at: Option<usize>,
    given: &Given,
    notes: &mut N,
) -> Result<(), AllocError>
    ensures told { (xs : List NoteShape) (e : Effect) → N.tells notes.old xs →
        IsGiven by.now e given.now →
        OnOk result (N.tells notes.new (xs ++ map (noted_as by.now count) (given_by e))) }
{
    let event = match given {
        Given::Nothing => return Ok(()),
        Given::Made(made, _) => Event::Made(made),
        Given::Sent(to, request) => {
            Event::Sent(to, request.label.as_label(), &request.future.name)
        }
        Given::Filled(future, _) => Event::Answered(&future.name),
        Given::Polled => Event::Polled,
    };
    notes.note(Note {
        by,
        count,
        at,
        event,
    })
}

/// The lines behind so many.
pub fn behind(lines: &[Line], before: usize) -> &[Line]
    ensures { result.now ≡ drop before lines.now }
{
    if before < lines.len() {
        &lines[before..]
    } else {
        &[]
    }
}

/// It is told of lines, where it wants to.
pub fn tell_lines<N: Notes>(
    by: &ActivityName,
    count: u64,
    at: Option<usize>,
    lines: &[Line],
    notes: &mut N,
) -> Result<(), AllocError>
    ensures told { (xs : List NoteShape) → N.tells notes.old xs →
        let events = map Printed (map line_shape lines.now) in
        OnOk result (N.tells notes.new (xs ++ map (noted_as by.now count) events)) }
{
    if !notes.hears_lines() {
        return Ok(());
    }
    for line in lines {
        notes.note(Note {
            by,
            count,
            at,
            event: Event::Printed(line),
        })?;
    }
    Ok(())
}

/// It is told where an activity stands, if it asks for labels there.
pub fn tell_serve<N: Notes>(
    by: &ActivityName,
    count: u64,
    at: Option<usize>,
    wanted: Wanted,
    notes: &mut N,
) -> Result<(), AllocError>
    ensures told { (xs : List NoteShape) (a : model.Activity) → N.tells notes.old xs →
        count ≡ a.reductions → wanted_labels wanted.entry ≡ labels_wanted a →
        OnOk result (N.tells notes.new (xs ++ places_by by.now a (labels_wanted a))) }
{
    if !wanted.asks() {
        return Ok(());
    }
    notes.note(Note {
        by,
        count,
        at,
        event: Event::Standing(wanted),
    })
}

/// It is told of the fault at which an activity stands, if its status is one.
pub fn tell_fault<N: Notes>(
    by: &ActivityName,
    count: u64,
    at: Option<usize>,
    status: &Status,
    notes: &mut N,
) -> Result<(), AllocError>
    ensures told { (xs : List NoteShape) (a : model.Activity) → N.tells notes.old xs →
        count ≡ a.reductions → let faults = faulted_by by.now a (status_shape status.now) in
        OnOk result (N.tells notes.new (xs ++ faults)) }
{
    match status {
        Status::Faulted(fault) => notes.note(Note {
            by,
            count,
            at,
            event: Event::Faulted(*fault),
        }),
        Status::Done | Status::Serving | Status::Running | Status::Awaits(_) => Ok(()),
    }
}

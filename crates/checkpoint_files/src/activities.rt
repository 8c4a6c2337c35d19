//! Activities, each a line.

ghost use Rattle.std.specs.Prelude.{codes, map};
ghost use Rattle.asp_model.specs.Shapes.{line_shape, reception_shape};
ghost use Rattle.checkpoint_text.specs.Reading.{
  activity as activity_in,
  line_read,
  list_of,
  output as output_in,
  reception as reception_in,
  service as service_in,
};
ghost use Rattle.checkpoint_items.specs.Answers.{Finds, Says};
ghost use Rattle.checkpoint_parts.specs.Shapes.{
  activity_shape,
  parts_shape,
  service_shape,
  state_shape,
  work_shape,
};
ghost use Rattle.checkpoint_files.specs.Activities.{parts_in, state_in, work_in};

use crate::running::{read_running, read_waiting};
use asp_model::{Line, Reception};
use checkpoint_items::{
    Items, ReadError, end_line, items_behind, read_answer, read_count, read_name, read_output,
    read_place, read_reception, read_small,
};
use checkpoint_parts::{ActivityText, PartsText, ServiceText, StateText, WorkText};
use checkpoint_reading::{read_cells, read_requests};
use std::alloc::Global;

/// The line of an activity.
pub fn read_activity(alloc: Global, line: &[u8]) -> Result<ActivityText, ReadError>
    ensures activity { let word = codes "activity" in
        Says activity_shape (line_read word activity_in line.now) result }
{
    let mut items = items_behind(line, b"activity".as_slice())?;
    let activity = read_parts_of_activity(alloc, &mut items)?;
    end_line(&mut items)?;
    Ok(activity)
}

fn read_parts_of_activity(alloc: Global, items: &mut Items<'_>) -> Result<ActivityText, ReadError>
    ensures read { Finds activity_shape (activity_in items.old) items.new result }
{
    let name = read_name(alloc, items)?;
    let reductions = read_count(items)?;
    let sends = read_small(items)?;
    let creations = read_small(items)?;
    let parts = read_parts(alloc, items, reductions)?;
    Ok(ActivityText {
        name,
        reductions,
        sends,
        creations,
        parts,
    })
}

// Of an activity that has counted so many reductions.
fn read_parts(alloc: Global, items: &mut Items<'_>, reductions: u64) -> Result<PartsText, ReadError>
    ensures read { Finds parts_shape (parts_in items.old) items.new result }
{
    let lines = read_outputs(alloc, items, reductions)?;
    let log = read_log(alloc, items)?;
    let queue = read_requests(alloc, items)?;
    let work = read_work(alloc, items)?;
    Ok(PartsText {
        lines,
        log,
        queue,
        work,
    })
}

fn read_work(alloc: Global, items: &mut Items<'_>) -> Result<WorkText, ReadError>
    ensures read { Finds work_shape (work_in items.old) items.new result }
{
    let present = read_answer(alloc, items)?;
    let services = read_services(alloc, items)?;
    let state = read_state(alloc, items)?;
    Ok(WorkText {
        present,
        services,
        state,
    })
}

fn read_state(alloc: Global, items: &mut Items<'_>) -> Result<StateText, ReadError>
    ensures read { Finds state_shape (state_in items.old) items.new result }
{
    let terms = read_running(alloc, items)?;
    let store = read_cells(alloc, items)?;
    let active = read_place(items)?;
    Ok(StateText {
        terms,
        store,
        active,
    })
}

// A line takes a reduction, so no run has more.
fn read_outputs(alloc: Global, items: &mut Items<'_>, most: u64) -> Result<Vec<Line>, ReadError>
    ensures read { let reader = list_of output_in in
        Finds (λ v. map line_shape v.items) (reader items.old) items.new result }
{
    let count = read_count(items)?;
    if count > most {
        return Err(ReadError::Memory);
    }
    let mut lines = Vec::new(alloc);
    for _ in 0..count {
        lines.push(read_output(alloc, items)?)?;
    }
    Ok(lines)
}

fn read_log(alloc: Global, items: &mut Items<'_>) -> Result<Vec<Reception>, ReadError>
    ensures read { let reader = list_of reception_in in
        Finds (λ v. map reception_shape v.items) (reader items.old) items.new result }
{
    let count = read_count(items)?;
    let mut log = Vec::new(alloc);
    for _ in 0..count {
        log.push(read_reception(alloc, items)?)?;
    }
    Ok(log)
}

fn read_services(alloc: Global, items: &mut Items<'_>) -> Result<Vec<ServiceText>, ReadError>
    ensures read { let reader = list_of service_in in
        Finds (λ v. map service_shape v.items) (reader items.old) items.new result }
{
    let count = read_count(items)?;
    let mut services = Vec::new(alloc);
    for _ in 0..count {
        services.push(read_suspended(alloc, items)?)?;
    }
    Ok(services)
}

fn read_suspended(alloc: Global, items: &mut Items<'_>) -> Result<ServiceText, ReadError>
    ensures read { Finds service_shape (service_in items.old) items.new result }
{
    let terms = read_waiting(alloc, items)?;
    let future = read_answer(alloc, items)?;
    Ok(ServiceText { terms, future })
}

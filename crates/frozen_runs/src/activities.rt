//! The line of an activity, by its parts.
#![tactic(auto, using(checkpoint_text::proofs::WritingLemmas::writing))]

ghost use Rattle.std.specs.Prelude.{◌≡◌, ◌++◌, IfOk, List, OnOk, codes, map, reverse, string_bytes};
ghost use Rattle.asp_model.specs.Configuration as model;
ghost use Rattle.asp_model.specs.Configuration.{RequestShape, ServiceShape};
ghost use Rattle.asp_model.specs.Shapes.{reception_shape};
ghost use Rattle.asp_model.specs.Term.{Tree};
ghost use Rattle.checkpoint_text.specs.Items.{list_items, request_items, running_items, service_items, store_items};
ghost use Rattle.checkpoint_text.specs.Lines.{activity_items, line_of};
ghost use Rattle.checkpoint_text.specs.Writing.{Adds};
ghost use Rattle.code_table.specs.Shapes.{store_of};
ghost use Rattle.request_queue.specs.Pending.{waiting};
ghost use Rattle.step_activity.specs.Parts.{ArePartsOf};
ghost use Rattle.step_machine.specs.Standing.{Standing, view_of};
ghost use Rattle.frozen_runs.specs.Activities.{frozen_by, line_piece, reception_piece, request_piece};

use crate::cells::put_cell;
use crate::parcels::put_request;
use crate::redexes::put_running;
use crate::services::put_services;
use asp_model::{ActivityName, Line, Reception};
use checkpoint_text::{put_answer, put_name, put_number, put_output, put_reception};
use code_reading::{DecodeError, show};
use code_table::Code;
use object_store::Store;
use request_queue::{Queue, Request};
use std::alloc::{AllocError, Global};
use step_activity::ActorParts;
use step_machine::Machine;

/// The line of an activity that runs this code, from its parts. Its machine has settled.
pub fn activity_line(
    alloc: Global,
    code: &Code,
    name: &ActivityName,
    parts: &ActorParts,
) -> Result<String, DecodeError>
    ensures line { (a : model.Activity) (rs : List RequestShape) →
        ArePartsOf parts.now code.now a rs →
        let log = map reception_shape parts.now.log.items in
        let items = activity_items (frozen_by name.now a log rs) in
        IfOk result (λ s. string_bytes s ≡ line_of (codes "activity") items) }
{
    let mut text = String::from_str(alloc, "activity")?;
    put_activity(alloc, &mut text, code, name, parts)?;
    Ok(text)
}

fn put_activity(
    alloc: Global,
    text: &mut String,
    code: &Code,
    name: &ActivityName,
    parts: &ActorParts,
) -> Result<(), DecodeError>
    ensures adds { (a : model.Activity) (rs : List RequestShape) →
        ArePartsOf parts.now code.now a rs →
        let log = map reception_shape parts.now.log.items in
        OnOk result (Adds text.old (activity_items (frozen_by name.now a log rs)) text.new) }
{
    put_name(text, name)?;
    put_number(text, parts.count)?;
    put_number(text, u64::from(parts.sends))?;
    put_number(text, u64::from(parts.creations))?;
    put_outputs(text, &parts.state.lines)?;
    put_log(text, &parts.log)?;
    put_queue(alloc, text, &parts.queue)?;
    put_answer(text, &parts.present)?;
    put_machine(alloc, text, code, &parts.state.machine)?;
    put_store(alloc, text, code, &parts.state.store)?;
    put_number(text, parts.active as u64)?;
    Ok(())
}

fn put_outputs(text: &mut String, lines: &[Line]) -> Result<(), AllocError>
    ensures adds { OnOk result (Adds text.old (list_items line_piece lines.now) text.new) }
{
    put_number(text, lines.len() as u64)?;
    for line in lines {
        put_output(text, line)?;
    }
    Ok(())
}

fn put_log(text: &mut String, log: &[Reception]) -> Result<(), AllocError>
    ensures adds { OnOk result (Adds text.old (list_items reception_piece log.now) text.new) }
{
    put_number(text, log.len() as u64)?;
    for reception in log {
        put_reception(text, reception)?;
    }
    Ok(())
}

// Writes the pending requests, oldest first.
fn put_queue(alloc: Global, text: &mut String, queue: &Queue) -> Result<(), DecodeError>
    ensures adds { let shapes = map (λ x. x.1) (waiting queue.now) in
        OnOk result (Adds text.old (list_items request_items shapes) text.new) }
{
    let pending = queue.pending()?;
    put_requests(alloc, text, &pending)?;
    Ok(())
}

fn put_requests(alloc: Global, text: &mut String, requests: &[&Request]) -> Result<(), DecodeError>
    ensures adds { OnOk result
        (Adds text.old (list_items request_piece requests.now) text.new) }
{
    put_number(text, requests.len() as u64)?;
    for request in requests {
        put_request(alloc, text, request)?;
    }
    Ok(())
}

// Writes the suspended services of a machine that has settled, and then its term.
fn put_machine(
    alloc: Global,
    text: &mut String,
    code: &Code,
    machine: &Machine,
) -> Result<(), DecodeError>
    ensures adds { (t : Tree) (vs : List ServiceShape) →
        Standing code.now (view_of machine.now) t vs →
        let items = list_items service_items (reverse vs) ++ running_items t in
        OnOk result (Adds text.old items text.new) }
{
    let shown = show(alloc, code, machine)?;
    put_services(text, &shown.services)?;
    put_running(text, &shown.term)?;
    Ok(())
}

fn put_store(
    alloc: Global,
    text: &mut String,
    code: &Code,
    store: &Store,
) -> Result<(), DecodeError>
    ensures adds { let shapes = store_of code.now store.now.cells in
        OnOk result (Adds text.old (store_items shapes) text.new) }
{
    put_number(text, store.len() as u64)?;
    for place in 0..store.len() {
        put_cell(alloc, text, code, store.cell(place))?;
    }
    Ok(())
}

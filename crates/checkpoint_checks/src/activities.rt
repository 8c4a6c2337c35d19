//! Activities: what they run, have suspended and store, and what they have to answer.

ghost use Rattle.std.specs.Prelude.{◌≡◌, ◌&&◌, is_some, length, map, not};
ghost use Rattle.std.specs.List.{list_all};
ghost use Rattle.std.specs.Option.{option_map};
ghost use Rattle.asp_model.specs.Shapes.{future_shape, tree_of};
ghost use Rattle.checkpoint_reading.specs.Cells.{cell_shape};
ghost use Rattle.proper_terms.specs.Tests.{Tests};
ghost use Rattle.checkpoint_checks.specs.Maps.{activities_of, homes_of};
ghost use Rattle.checkpoint_checks.specs.Activities.{activity_fits, answer_fits, answers_fit, has_object, inner_fits, is_object, outer_fit, run_fits, service_fits, service_future, state_fits, wait_fits, work_fits};

use crate::cells::{check_cells, size_of};
use crate::parcels::check_requests;
use crate::world::World;
use asp_model::{ActivityName, FutureName, Place, Term};
use checkpoint_files::{runs, waits};
use checkpoint_parts::{ActivityText, ServiceText, StateText, WorkText};
use checkpoint_reading::CellText;
use proper_terms::{Refusal, check_contexts, check_term};
use std::alloc::Global;

fn check_inner(alloc: Global, size: Place, terms: &[Term]) -> Result<(), Refusal>
    ensures fits { Tests (inner_fits size (map tree_of terms.now)) result }
{
    match terms {
        [] => Err(Refusal::Unsound),
        [first, contexts @ ..] => {
            check_term(alloc, size, 0, first)?;
            check_contexts(alloc, size, contexts)
        }
    }
}

fn check_running(alloc: Global, size: Place, terms: &[Term]) -> Result<(), Refusal>
    ensures fits { Tests (run_fits size (map tree_of terms.now)) result }
{
    if runs(terms) {
        check_inner(alloc, size, terms)
    } else {
        Err(Refusal::Unsound)
    }
}

fn check_outer(alloc: Global, size: Place, terms: &[Term]) -> Result<(), Refusal>
    ensures fit { Tests (outer_fit size (map tree_of terms.now)) result }
{
    match terms {
        [] => Err(Refusal::Unsound),
        [_, contexts @ ..] => check_contexts(alloc, size, contexts),
    }
}

fn check_waiting(alloc: Global, size: Place, terms: &[Term]) -> Result<(), Refusal>
    ensures fits { Tests (wait_fits size (map tree_of terms.now)) result }
{
    if waits(terms) {
        check_outer(alloc, size, terms)
    } else {
        Err(Refusal::Unsound)
    }
}

fn check_services(alloc: Global, size: Place, services: &[ServiceText]) -> Result<(), Refusal>
    ensures fit { Tests (list_all (service_fits size) services.now) result }
{
    for service in services {
        check_waiting(alloc, size, &service.terms)?;
    }
    Ok(())
}

fn is_object(cell: &CellText) -> bool
    ensures object { result ≡ is_object (cell_shape cell.now) }
{
    match cell {
        CellText::Object { .. } => true,
        CellText::Number(_) | CellText::Reference(_) | CellText::Future(_) | CellText::Group(_) =>
            false,
    }
}

// The active place is that of an object.
fn check_active(cells: &[CellText], active: Place) -> Result<(), Refusal>
    ensures object { Tests (has_object (map cell_shape cells.now) active) result }
{
    if active >= size_of(cells) {
        return Err(Refusal::Unsound);
    }
    let fits = is_object(&cells[active as usize]);
    if fits { Ok(()) } else { Err(Refusal::Unsound) }
}

fn check_state(alloc: Global, world: &World<'_>, state: &StateText) -> Result<(), Refusal>
    ensures fits { let known = state_fits (activities_of world.now) (homes_of world.now) in
        Tests (known state.now) result }
{
    let size = size_of(&state.store);
    check_running(alloc, size, &state.terms)?;
    check_cells(alloc, world, size, &state.store)?;
    check_active(&state.store, state.active)
}

fn check_answer(
    world: &World<'_>,
    name: &ActivityName,
    future: &Option<FutureName>,
) -> Result<(), Refusal>
    ensures fits { let answer = option_map future_shape future.now in
        Tests (answer_fits (homes_of world.now) name.now answer) result }
{
    match future {
        Some(future) => world.check_at(name, future),
        None => Ok(()),
    }
}

fn check_suspended(
    world: &World<'_>,
    name: &ActivityName,
    services: &[ServiceText],
) -> Result<(), Refusal>
    ensures fit { let answers = map service_future services.now in
        Tests (list_all (answer_fits (homes_of world.now) name.now) answers) result }
{
    for service in services {
        check_answer(world, name, &service.future)?;
    }
    Ok(())
}

fn check_all_answer(services: &[ServiceText]) -> Result<(), Refusal>
    ensures all { Tests (list_all (λ g. is_some g) (map service_future services.now)) result }
{
    for service in services {
        if service.future.is_none() {
            return Err(Refusal::Unsound);
        }
    }
    Ok(())
}

// A future is present exactly if a term is suspended; of these the oldest has none to answer.
fn check_answers(present: &Option<FutureName>, services: &[ServiceText]) -> Result<(), Refusal>
    ensures fit { let answers = map service_future services.now in
        Tests (answers_fit (option_map future_shape present.now) answers) result }
{
    match services {
        [] => {
            if present.is_some() {
                Err(Refusal::Unsound)
            } else {
                Ok(())
            }
        }
        [oldest, others @ ..] => {
            if present.is_none() || oldest.future.is_some() {
                return Err(Refusal::Unsound);
            }
            check_all_answer(others)
        }
    }
}

fn check_work(
    alloc: Global,
    world: &World<'_>,
    name: &ActivityName,
    work: &WorkText,
) -> Result<(), Refusal>
    ensures fits { let known = work_fits (activities_of world.now) (homes_of world.now) in
        Tests (known name.now work.now) result }
{
    check_state(alloc, world, &work.state)?;
    check_services(alloc, size_of(&work.state.store), &work.services)?;
    check_answer(world, name, &work.present)?;
    check_suspended(world, name, &work.services)?;
    check_answers(&work.present, &work.services)
}

fn check_activity(alloc: Global, world: &World<'_>, activity: &ActivityText) -> Result<(), Refusal>
    ensures fits { let known = activity_fits (activities_of world.now) (homes_of world.now) in
        Tests (known activity.now) result }
{
    check_requests(alloc, world, &activity.name, &activity.parts.queue)?;
    check_work(alloc, world, &activity.name, &activity.parts.work)
}

/// All activities are known and proper.
pub fn check_activities(
    alloc: Global,
    world: &World<'_>,
    activities: &[ActivityText],
) -> Result<(), Refusal>
    ensures fit { let known = activity_fits (activities_of world.now) (homes_of world.now) in
        Tests (list_all known activities.now) result }
{
    for activity in activities {
        check_activity(alloc, world, activity)?;
    }
    Ok(())
}

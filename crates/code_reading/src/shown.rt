//! The terms of a machine, and of its suspended services.

ghost use Rattle.std.specs.Prelude.{◌≡◌, ◌∷◌, ◌++◌, [], IfOk, IfSome, List, map, reverse};
ghost use Rattle.std.specs.Option.{option_map};
ghost use Rattle.asp_model.specs.Configuration.{ServiceShape};
ghost use Rattle.asp_model.specs.Shapes.{future_shape, tree_of};
ghost use Rattle.asp_model.specs.Term.{Tree};
ghost use Rattle.code_table.specs.Cells.{held_future};
ghost use Rattle.step_machine.specs.Items.{Item};
ghost use Rattle.step_machine.specs.Stacks.{IsStack};
ghost use Rattle.step_machine.specs.Standing.{Standing, view_of};
ghost use Rattle.step_machine.specs.Views.{IsAlone};
ghost use Rattle.code_reading.specs.Shown.{AreServices, IsShown, service_shown};

use crate::cursor::{Cursor, all_but, below, innermost};
use crate::errors::DecodeError;
use crate::focus::{focus_term, taken_by};
use crate::frames::segment;
use asp_model::{FutureName, Term};
use code_table::{Code, Future};
use std::alloc::{AllocError, Global};
use std::sync::Arc;
use step_machine::Machine;

/// A term that waits for the end of a service: its contexts, innermost first, each as a term with a
/// hole, and the future that it had to answer.
#[derive(Drop)]
pub struct Suspended {
    pub contexts: Vec<Term>,
    pub future: Option<FutureName>,
}

/// The term of a machine: its redex, or the node on whose way it is, or its place; then its contexts,
/// innermost first, each as a term with a hole. The suspended services stand oldest first.
#[derive(Drop)]
pub struct Shown {
    pub term: Vec<Term>,
    pub services: Vec<Suspended>,
}

/// The terms of a machine over this code.
pub fn show(alloc: Global, code: &Code, machine: &Machine) -> Result<Shown, DecodeError>
    ensures shown { (t : Tree) (vs : List ServiceShape) →
        Standing code.now (view_of machine.now) t vs → IfOk result
        (λ r. IsShown t vs (map tree_of r.term.items) (map service_shown r.services.items)) }
{
    let mut first = Vec::new(alloc);
    first.push(focus_term(alloc, code, machine)?)?;
    let start = Cursor {
        frames: &machine.frames,
        env: &machine.env,
        operands: all_but(&machine.operands, taken_by(machine.focus)),
    };
    let (term, left) = segment(alloc, code, start, first)?;
    let services = services(alloc, code, left, &machine.futures)?;
    Ok(Shown { term, services })
}

/// The suspended services, oldest first.
fn services(
    alloc: Global,
    code: &Code,
    start: Cursor,
    held: &[Option<Arc<Future>>],
) -> Result<Vec<Suspended>, DecodeError>
    ensures services { let futures = reverse (map (option_map held_future) held.now) in
        (items : List Item) → IsAlone (reverse start.entry.frames.now) →
        IsStack code.now (reverse start.entry.frames.now) start.entry.env.now start.entry.operands.now items →
        IfOk result (λ r. AreServices items futures (map service_shown r.items)) }
{
    let mut found = Vec::new(alloc);
    let mut cursor = start;
    let mut futures = held;
    while let Some((frame, others)) = innermost(cursor.frames) {
        let Some((future, older)) = newest(futures) else {
            return Err(DecodeError::Unfit);
        };
        futures = older;
        let inner = below(&cursor, frame, others);
        let (contexts, left) = segment(alloc, code, inner, Vec::new(alloc))?;
        found.push(Suspended {
            contexts,
            future: copy_name(alloc, future)?,
        })?;
        cursor = left;
    }
    found.reverse();
    Ok(found)
}

fn newest(held: &[Option<Arc<Future>>]) -> Option<(&Option<Arc<Future>>, &[Option<Arc<Future>>])>
    ensures some { IfSome result (λ p. held.now ≡ p.1.now ++ p.0.now ∷ []) }
{
    if held.is_empty() {
        return None;
    }
    let count = held.len() - 1;
    Some((&held[count], &held[..count]))
}

fn copy_name(alloc: Global, future: &Option<Arc<Future>>) -> Result<Option<FutureName>, AllocError>
    ensures same { IfOk result
        (λ r. option_map future_shape r ≡ option_map held_future future.now) }
{
    match future {
        Some(held) => Ok(Some(held.name.copy(alloc)?)),
        None => Ok(None),
    }
}

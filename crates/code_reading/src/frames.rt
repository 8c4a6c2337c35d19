//! The contexts that frames are.

ghost use Rattle.std.specs.Prelude.{◌≡◌, ◌≤◌, IfOk, List, drop, length, map, reverse, take};
ghost use Rattle.asp_model.specs.Shapes.{tree_of};
ghost use Rattle.asp_model.specs.Split.{Context};
ghost use Rattle.step_machine.specs.Items.{Item, Waits};
ghost use Rattle.step_machine.specs.Stacks.{IsItem, IsStack, IsWaiting, last};
ghost use Rattle.code_reading.specs.Shown.{IsSegment, hole_tree};

use crate::cursor::{Cursor, behind, below, last_of, up_to, waiting};
use crate::errors::DecodeError;
use crate::groups::calling_term;
use crate::terms::context_of;
use asp_model::Term;
use code_table::Code;
use std::alloc::Global;
use step_machine::{Form, Frame};

/// A node round the next of its terms, as a term with a hole.
fn node_term(alloc: Global, code: &Code, cursor: &Cursor, frame: Frame) -> Result<Term, DecodeError>
    ensures context { let ns = drop frame.base (take frame.height cursor.now.env.now) in
        let done = last frame.done cursor.now.operands.now in
        (c : Context) → IsWaiting code.now ns done frame.node frame.from c →
        IfOk result (λ r. tree_of r ≡ hole_tree c) }
{
    if frame.node >= code.nodes().len() {
        return Err(DecodeError::Unfit);
    }
    let places = behind(up_to(cursor.env, frame.height), frame.base);
    let done = last_of(cursor.operands, frame.done);
    context_of(alloc, code, places, frame.node, frame.from, done)
}

/// The context that a frame is, as a term with a hole.
fn frame_term(
    alloc: Global,
    code: &Code,
    cursor: &Cursor,
    frame: Frame,
) -> Result<Term, DecodeError>
    ensures context { let ns = drop frame.base (take frame.height cursor.now.env.now) in
        let done = last frame.done cursor.now.operands.now in
        (c : Context) → IsItem code.now ns done frame.form frame.node frame.from (Waits c) →
        IfOk result (λ r. tree_of r ≡ hole_tree c) }
{
    match frame.form {
        Form::Terms => node_term(alloc, code, cursor, frame),
        Form::Calls(spread) => {
            let own = last_of(cursor.operands, frame.done);
            calling_term(alloc, code, spread, frame.node, frame.from, own)
        }
        Form::Service => Err(DecodeError::Unfit),
    }
}

/// Puts the contexts of the innermost frames behind other terms, as far as they wait for terms.
pub fn segment<'a>(
    alloc: Global,
    code: &Code,
    start: Cursor<'a>,
    first: Vec<Term>,
) -> Result<(Vec<Term>, Cursor<'a>), DecodeError>
    ensures segment { (items : List Item) →
        IsStack code.now (reverse start.entry.frames.now) start.entry.env.now start.entry.operands.now items →
        IfOk result (λ r. IsSegment code.now items (map tree_of first.items) (map tree_of r.0.items)
        r.1.frames.now r.1.env.now r.1.operands.now) }
    ensures shorter { IfOk result
        (λ r. length r.1.frames.now ≤ length start.entry.frames.now) }
{
    let mut terms = first;
    let mut cursor = start;
    while let Some((frame, others)) = waiting(cursor.frames) {
        terms.push(frame_term(alloc, code, &cursor, frame)?)?;
        cursor = below(&cursor, frame, others);
    }
    Ok((terms, cursor))
}

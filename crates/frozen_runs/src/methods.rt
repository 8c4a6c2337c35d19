//! The methods of objects, over the places that they captured.
#![tactic(auto, using(checkpoint_text::proofs::WritingLemmas::writing))]

ghost use Rattle.std.specs.Prelude.{◌≤◌, OnOk, length};
ghost use Rattle.checkpoint_text.specs.Items.{list_items};
ghost use Rattle.checkpoint_text.specs.Writing.{Adds};
ghost use Rattle.code_table.specs.Sound.{IsBelow, IsSoundMethod, MethodsBelow, MethodsSound};
ghost use Rattle.code_table.specs.Tables.{pieces, seen_methods, with_places};
ghost use Rattle.frozen_runs.specs.Pieces.{head_items, method_shape_items};

use checkpoint_text::{put_number, put_term, put_text, put_words};
use code_reading::{DecodeError, behind, term_of, up_to};
use code_table::{Code, MethodCode};
use std::alloc::Global;

/// Writes methods over the places that they captured, each method's behind the one before.
pub fn put_methods(
    alloc: Global,
    text: &mut String,
    code: &Code,
    methods: &[MethodCode],
    captured: &[usize],
) -> Result<(), DecodeError>
    requires sound { MethodsSound (pieces code.now) methods.now }
    requires below { MethodsBelow (length code.now) methods.now }
    ensures adds { let shapes = seen_methods (pieces code.now) methods.now captured.now in
        OnOk result (Adds text.old (list_items method_shape_items shapes) text.new) }
{
    put_number(text, methods.len() as u64)?;
    let mut left = captured;
    for method in methods {
        let count = method.captured.len();
        put_method(alloc, text, code, method, up_to(left, count))?;
        left = behind(left, count);
    }
    Ok(())
}

// Writes a method over the places that it captured.
fn put_method(
    alloc: Global,
    text: &mut String,
    code: &Code,
    method: &MethodCode,
    captured: &[usize],
) -> Result<(), DecodeError>
    requires sound { IsSoundMethod (pieces code.now) method.now }
    requires below { IsBelow (length code.now) method.now.body }
    requires few { length captured.now ≤ length method.now.captured.items }
    ensures adds { let shape = with_places (pieces code.now) method.now captured.now in
        OnOk result (Adds text.old (method_shape_items shape) text.new) }
{
    put_head(text, method)?;
    let body = term_of(alloc, code, captured, &method.body)?;
    put_term(text, &body)?;
    Ok(())
}

// Writes a method's label, the names of self and of the parameters.
fn put_head(text: &mut String, method: &MethodCode) -> Result<(), DecodeError>
    ensures adds { OnOk result (Adds text.old (head_items method.now) text.new) }
{
    put_text(text, method.label.text.as_str())?;
    put_text(text, method.slf.as_str())?;
    put_words(text, &method.parameters)?;
    Ok(())
}

//! Terms of code, over what stands in the first slots. The recursion is as deep as the term.

ghost use Rattle.std.specs.Prelude.{◌≡◌, ◌<◌, ◌≤◌, ◌++◌, length, map, IfOk, OnOk};
ghost use Rattle.asp_model.specs.Shapes.{tree_of};
ghost use Rattle.code_table.specs.Sound.{AllBelow, IsBelow, KindBelow, MethodsBelow};
ghost use Rattle.code_table.specs.Tables.{head_of, piece_at, pieces};
ghost use Rattle.code_laws.specs.Shown.{shown};
ghost use Rattle.code_reading.specs.Decoded.{finished_tree, seen_tree, shown_body, shown_child};
ghost use Rattle.code_table.specs.Parts.{body_tree, method_head};

use crate::built::{built, object};
use crate::copies::copy_words;
use crate::errors::DecodeError;
use crate::seen::{Seen, captured_in, seen_in, seen_term};
use asp_model::{Method, Term};
use code_table::{Child, Code, Kind, MethodCode};
use std::alloc::Global;

/// The term of a child.
#[cycle(decoder)]
pub fn child_term<'a>(
    alloc: Global,
    code: &'a Code,
    kept: &[Seen<'a>],
    child: &'a Child,
) -> Result<Term, DecodeError>
    requires below { IsBelow (length code.now) child.now }
    ensures term { IfOk result
        (λ r. tree_of r ≡ shown_child (map seen_tree kept.now) (pieces code.now) child.now) }
{
    match child {
        Child::Leaf(leaf) => Ok(seen_term(alloc, seen_in(kept, leaf))?),
        Child::Node(number) => node_term(alloc, code, kept, *number),
    }
}

/// The term of a node.
#[cycle(decoder)]
pub fn node_term<'a>(
    alloc: Global,
    code: &'a Code,
    kept: &[Seen<'a>],
    number: usize,
) -> Result<Term, DecodeError>
    requires within { number < length code.now }
    ensures term { IfOk result
        (λ r. tree_of r ≡ shown (map seen_tree kept.now) (piece_at (pieces code.now) number)) }
{
    let node = &code.nodes()[number];
    let mut terms = Vec::new(alloc);
    push_terms(alloc, code, kept, &node.children, number, &mut terms)?;
    finished(alloc, code, kept, &node.kind, number, terms)
}

/// Puts the terms of children that stand below a number behind others.
#[cycle(decoder)]
pub fn push_terms<'a>(
    alloc: Global,
    code: &'a Code,
    kept: &[Seen<'a>],
    children: &'a [Child],
    number: usize,
    terms: &mut Vec<Term>,
) -> Result<(), DecodeError>
    requires below { AllBelow number children.now }
    requires within { number ≤ length code.now }
    ensures terms { let shown = map (shown_child (map seen_tree kept.now) (pieces code.now)) children.now in
        OnOk result (map tree_of terms.new.items ≡ map tree_of terms.old.items ++ shown) }
{
    for child in children {
        terms.push(child_term(alloc, code, kept, child)?)?;
    }
    Ok(())
}

/// A node over the terms of its children, with its methods where it makes an object.
#[cycle(decoder)]
pub fn finished<'a>(
    alloc: Global,
    code: &'a Code,
    kept: &[Seen<'a>],
    kind: &'a Kind,
    number: usize,
    terms: Vec<Term>,
) -> Result<Term, DecodeError>
    requires below { KindBelow number kind.now }
    requires within { number ≤ length code.now }
    ensures term { IfOk result (λ r. tree_of r
        ≡ finished_tree (map seen_tree kept.now) (pieces code.now) kind.now (map tree_of terms.items)) }
{
    match kind {
        Kind::Make(class) => {
            let methods = methods_of(alloc, code, kept, &class.methods, number)?;
            object(alloc, &class.fields, terms, methods)
        }
        _ => built(alloc, kind, terms),
    }
}

#[cycle(decoder)]
fn methods_of<'a>(
    alloc: Global,
    code: &'a Code,
    kept: &[Seen<'a>],
    methods: &'a [MethodCode],
    number: usize,
) -> Result<Vec<Method>, DecodeError>
    requires below { MethodsBelow number methods.now }
    requires within { number ≤ length code.now }
    ensures heads { IfOk result (λ r. map method_head r.items ≡ map head_of methods.now) }
    ensures bodies { let shown = shown_body (map seen_tree kept.now) (pieces code.now) in
        IfOk result (λ r. map body_tree r.items ≡ map shown methods.now) }
{
    let mut decoded = Vec::new(alloc);
    for method in methods {
        decoded.push(method_of(alloc, code, kept, method)?)?;
    }
    Ok(decoded)
}

#[cycle(decoder)]
fn method_of<'a>(
    alloc: Global,
    code: &'a Code,
    kept: &[Seen<'a>],
    method: &'a MethodCode,
) -> Result<Method, DecodeError>
    requires below { IsBelow (length code.now) method.now.body }
    ensures head { IfOk result (λ r. method_head r ≡ head_of method.now) }
    ensures body { let shown = shown_body (map seen_tree kept.now) (pieces code.now) in
        IfOk result (λ r. body_tree r ≡ shown method.now) }
{
    let captured = captured_in(alloc, kept, &method.captured)?;
    method_over(alloc, code, &captured, method)
}

/// A method over what it captured.
#[cycle(decoder)]
fn method_over<'a>(
    alloc: Global,
    code: &'a Code,
    captured: &[Seen<'a>],
    method: &'a MethodCode,
) -> Result<Method, DecodeError>
    requires below { IsBelow (length code.now) method.now.body }
    ensures head { IfOk result (λ r. method_head r ≡ head_of method.now) }
    ensures body { let ps = pieces code.now in
        IfOk result (λ r. body_tree r ≡ shown_child (map seen_tree captured.now) ps method.now.body) }
{
    let label = method.label.copy(alloc)?;
    let slf = method.slf.copy(alloc)?;
    let parameters = copy_words(alloc, &method.parameters)?;
    let body = child_term(alloc, code, captured, &method.body)?;
    Ok(Method {
        label,
        slf,
        parameters,
        body,
    })
}

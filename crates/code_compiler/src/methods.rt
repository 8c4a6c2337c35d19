//! Methods, before and behind their bodies.

ghost use Rattle.std.specs.Prelude.{◌≡◌, ◌+◌, ◌∷◌, ◌++◌, [], length, IfOk, OnOk};
ghost use Rattle.std.specs.List.{flat_map};
ghost use Rattle.code_table.specs.Fitting.{CapturesFit, captured_names};
ghost use Rattle.code_table.specs.Uses.{use_at};
ghost use Rattle.code_compiler.specs.Slots.{bound_in, environment, names_of};
ghost use Rattle.code_table.specs.Parts.{body_tree, method_head};
ghost use Rattle.code_compiler.specs.Added.{body_of};
ghost use Rattle.code_compiler.specs.Compiled.{AreAmong, IsMethod};
ghost use Rattle.code_compiler.specs.Free.{free_in};

use crate::free::{note_term, push_head, push_words};
use crate::nodes::push_use;
use crate::scope::{Scope, leaf_of};
use asp_model::{Method, Word};
use code_table::{Capture, Child, MethodCode};
use std::alloc::{AllocError, Global};

/// The places of an object, which are its fields and what its methods captured, have numbers of 64 bits.
const MOST_PLACES: usize = usize::MAX;

/// What a method captures: the names that its body leaves free, in text order, each once.
pub fn captured_names_of(alloc: Global, method: &Method) -> Result<Vec<Word>, AllocError>
    ensures captured { IfOk result
        (λ r. r.items ≡ free_in (bound_in method.now) [] (body_tree method.now)) }
{
    let mut names = Vec::new(alloc);
    push_head(alloc, &mut names, method)?;
    let mut captured = Vec::new(alloc);
    note_term(alloc, &mut names, &mut captured, &method.body)?;
    Ok(captured)
}

/// A method whose body has come to an end.
#[derive(Drop)]
pub struct Ended {
    /// The names that it captures.
    pub captured: Vec<Word>,
    /// The slots of captured places that its code has, in text order.
    pub uses: Vec<usize>,
    pub code: Child,
}

/// The method as an object that is made in this scope has it.
pub fn end_method(
    alloc: Global,
    scope: &Scope,
    uses: &mut Vec<usize>,
    start: usize,
    method: &Method,
    ended: Ended,
) -> Result<MethodCode, AllocError>
    requires among { AreAmong (names_of scope.now) ended.captured.items }
    ensures made { let head = method_head method.now in
        let old = body_of scope.now uses.old.items in
        let new = body_of scope.now uses.new.items in
        IfOk result (IsMethod old new ended.captured.items ended.uses.items start head ended.code) }
{
    let captured = captures(alloc, scope, &ended.captured)?;
    pass_uses(uses, &captured, &ended.uses)?;
    let mut parameters = Vec::new(alloc);
    push_words(alloc, &mut parameters, &method.parameters)?;
    Ok(MethodCode {
        label: method.label.copy(alloc)?,
        slf: method.slf.copy(alloc)?,
        parameters,
        captured,
        uses: ended.uses,
        start,
        body: ended.code,
    })
}

/// What a method captures, where its object is made in this scope.
fn captures(alloc: Global, scope: &Scope, names: &[Word]) -> Result<Vec<Capture>, AllocError>
    requires among { AreAmong (names_of scope.now) names.now }
    ensures names { IfOk result (λ r. captured_names r.items ≡ names.now) }
    ensures fit { let bound = environment scope.now.bound.now in
        IfOk result (λ r. CapturesFit scope.now.captured.now bound r.items) }
{
    let mut captured = Vec::new(alloc);
    for name in names {
        let leaf = leaf_of(alloc, scope, name)?;
        captured.push(Capture {
            name: name.copy(alloc)?,
            leaf,
        })?;
    }
    Ok(captured)
}

/// Notes the captured places that a method's body uses, where they come from what the body round its
/// object captured.
fn pass_uses(uses: &mut Vec<usize>, captured: &[Capture], inner: &[usize]) -> Result<(), AllocError>
    ensures uses { OnOk result
        (uses.new.items ≡ uses.old.items ++ flat_map (use_at captured.now) inner.now) }
{
    for slot in inner {
        pass_use(uses, captured, *slot)?;
    }
    Ok(())
}

fn pass_use(uses: &mut Vec<usize>, captured: &[Capture], slot: usize) -> Result<(), AllocError>
    ensures uses { OnOk result
        (uses.new.items ≡ uses.old.items ++ use_at captured.now slot) }
{
    match captured.get(slot) {
        Some(capture) => push_use(uses, &capture.leaf),
        None => Ok(()),
    }
}

/// Where the captured places of the next method of an object begin. It fails when the object has more
/// places than can be numbered.
pub fn next_start(start: usize, code: &MethodCode) -> Result<usize, AllocError>
    ensures next { IfOk result (λ n. n ≡ start + length code.now.captured.items) }
{
    let count = code.captured.len();
    if count > MOST_PLACES - start {
        return Err(AllocError);
    }
    Ok(start + count)
}

/// The one child.
pub fn only_child(children: Vec<Child>) -> Child
    requires one { length children.items ≡ 1 }
    ensures child { children.items ≡ result ∷ [] }
{
    let mut children = children;
    match children.pop() {
        Some(child) => child,
        None => unreachable!(),
    }
}

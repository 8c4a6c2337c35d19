//! The names that a body may use, and their slots.

ghost use Rattle.std.specs.Prelude.{◌≡◌, ◌+◌, ◌∷◌, IfOk, length, true};
ghost use Rattle.asp_model.specs.Term.{has_text, location_of};
ghost use Rattle.code_table.specs.Classes.{number_of};
ghost use Rattle.code_table.specs.Fitting.{LeafFits, leaf_name, slots_from};
ghost use Rattle.code_compiler.specs.Slots.{bound_in, environment, names_of};

use asp_model::{Method, Word};
use code_table::Leaf;
use std::alloc::{AllocError, Global};

/// A name with its slot.
pub type Binding<'a> = (&'a Word, usize);

/// What a body captured, by its slots, and the names that are bound in it, the innermost first.
#[derive(Clone, Copy)]
pub struct Scope<'a> {
    pub captured: &'a [Word],
    pub bound: &'a [Binding<'a>],
}

/// The variable of this name.
pub fn leaf_of(alloc: Global, scope: &Scope, name: &Word) -> Result<Leaf, AllocError>
    requires bound { has_text name.now (names_of scope.now) ≡ true }
    ensures fits { let bound = environment scope.now.bound.now in
        IfOk result (λ l. LeafFits scope.now.captured.now bound l) }
    ensures name { IfOk result (λ l. name.now ≡ leaf_name scope.now.captured.now l) }
{
    match slot_of(scope.bound, name) {
        Some(slot) => Ok(Leaf::Own(slot, name.copy(alloc)?)),
        None => Ok(Leaf::Kept(captured_slot(scope.captured, name))),
    }
}

/// The bindings of a body in which one more name has the next slot.
pub fn bound_with<'a>(
    alloc: Global,
    scope: &Scope<'a>,
    name: &'a Word,
) -> Result<Vec<Binding<'a>>, AllocError>
    ensures bound { let old = environment scope.now.bound.now in
        let slot = length scope.now.captured.now + length scope.now.bound.now in
        IfOk result (λ r. environment r.items ≡ (name.now, slot) ∷ old) }
{
    let slot = scope.captured.len() + scope.bound.len();
    let mut bound = Vec::new(alloc);
    bound.push((name, slot))?;
    bound.extend_from_slice(scope.bound)?;
    Ok(bound)
}

/// The names in a method's head, in slots from a number on.
pub fn head_slots<'a>(
    alloc: Global,
    captured: &[Word],
    method: &'a Method,
) -> Result<Vec<Binding<'a>>, AllocError>
    ensures slots { IfOk result
        (λ r. environment r.items ≡ slots_from (length captured.now) (bound_in method.now)) }
{
    let mut bound = Vec::new(alloc);
    bound.push((&method.slf, captured.len()))?;
    for name in &method.parameters {
        bound.push((name, captured.len() + bound.len()))?;
    }
    Ok(bound)
}

/// The slot of a name among those that are bound.
fn slot_of(bound: &[Binding], name: &Word) -> Option<usize>
    ensures slot { result ≡ location_of name.now (environment bound.now) }
{
    for (other, slot) in bound {
        if name == *other {
            return Some(*slot);
        }
    }
    None
}

/// The number of the first of these names that is this one.
fn captured_slot(captured: &[Word], name: &Word) -> usize
    requires among { has_text name.now captured.now ≡ true }
    ensures number { number_of name.now captured.now ≡ Some result }
{
    for i in 0..captured.len() {
        if name == &captured[i] {
            return i;
        }
    }
    unreachable!()
}

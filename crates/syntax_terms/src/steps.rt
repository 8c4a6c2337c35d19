//! What several terms become that stand one after another.

ghost use Rattle.std.specs.Prelude.{◌≡◌, ◌∷◌, ◌++◌, [], map, IfOk};
ghost use Rattle.asp_model.specs.Shapes.{marked_of, mark_shape};
ghost use Rattle.syntax_grammar.specs.Nodes.{mark_at as new_mark, terms_at};

use asp_model::{Mark, Term};
use std::alloc::{AllocError, Global};

/// The mark of a node that begins at a place, in no parentheses.
pub fn mark_at(alloc: Global, at: usize) -> Mark
    ensures mark { mark_shape result ≡ new_mark at }
{
    Mark {
        at,
        parentheses: 0,
        left: 0,
        names: Vec::new(alloc),
    }
}

/// One term, or the steps of several.
#[tactic(auto, using(crate::proofs::SequenceLemmas::steps_of))]
pub fn sequence(
    alloc: Global,
    start: usize,
    mut before: Vec<Term>,
    last: Box<Term>,
) -> Result<Box<Term>, AllocError>
    ensures sequence { let terms = map marked_of before.items ++ marked_of last.value ∷ [] in
        IfOk result (λ t. marked_of t.value ≡ terms_at start terms) }
{
    if before.is_empty() {
        return Ok(last);
    }
    before.push(Box::into_inner(last))?;
    Ok(Box::new(alloc, Term::Steps(before, mark_at(alloc, start)))?)
}

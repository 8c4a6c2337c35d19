//! Lists of terms by their length.

ghost use Rattle.std.specs.Prelude.{◌≡◌, ◌∷◌, [], IfOk, IfSome};

use crate::errors::DecodeError;
use asp_model::Term;
use std::alloc::Global;

/// The one term of these.
pub fn only(mut terms: Vec<Term>) -> Option<Term>
    ensures { IfSome result (λ t. terms.items ≡ t ∷ []) }
{
    if terms.len() != 1 {
        return None;
    }
    terms.pop()
}

/// The two terms of these, each on its own. `Unfit` where they are not two.
pub fn both(alloc: Global, mut terms: Vec<Term>) -> Result<(Box<Term>, Box<Term>), DecodeError>
    ensures { IfOk result (λ t. terms.items ≡ t.0.value ∷ t.1.value ∷ []) }
{
    let second = boxed(alloc, terms.pop())?;
    let first = boxed(alloc, only(terms))?;
    Ok((first, second))
}

fn boxed(alloc: Global, term: Option<Term>) -> Result<Box<Term>, DecodeError>
    ensures { IfOk result (λ b. term ≡ Some b.value) }
{
    match term {
        Some(term) => Ok(Box::new(alloc, term)?),
        None => Err(DecodeError::Unfit),
    }
}

/// The first term of these, and the others.
pub fn first_of(mut terms: Vec<Term>) -> Option<(Term, Vec<Term>)>
    ensures { IfSome result (λ t. terms.items ≡ t.0 ∷ t.1.items) }
{
    if terms.is_empty() {
        return None;
    }
    let first = terms.remove(0);
    Some((first, terms))
}

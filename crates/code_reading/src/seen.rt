//! What variables stand for.

ghost use Rattle.std.specs.Prelude.{◌≡◌, IfOk, map};
ghost use Rattle.asp_model.specs.Term.{loc};
ghost use Rattle.asp_model.specs.Shapes.{tree_of};
ghost use Rattle.code_laws.specs.Shown.{shown_captures, shown_leaf};
ghost use Rattle.code_reading.specs.Decoded.{seen_tree};

use asp_model::{Mark, Term, Word};
use code_table::{Capture, Leaf};
use std::alloc::{AllocError, Global};

/// What stands in a slot: a place, a name to which no place is bound yet, or nothing, which no
/// variable of a program comes to.
#[derive(Clone, Copy)]
pub enum Seen<'a> {
    Place(usize),
    Name(&'a Word),
    Nothing,
}

/// What a variable stands for, where these stand in the first slots.
pub fn seen_in<'a>(kept: &[Seen<'a>], leaf: &'a Leaf) -> Seen<'a>
    ensures seen { seen_tree result ≡ shown_leaf (map seen_tree kept.now) leaf.now }
{
    match leaf {
        Leaf::Own(slot, name) => match kept.get(*slot) {
            Some(seen) => *seen,
            None => Seen::Name(name),
        },
        Leaf::Kept(slot) => match kept.get(*slot) {
            Some(seen) => *seen,
            None => Seen::Nothing,
        },
    }
}

/// What a method captures.
pub fn captured_in<'a>(
    alloc: Global,
    kept: &[Seen<'a>],
    captures: &'a [Capture],
) -> Result<Vec<Seen<'a>>, AllocError>
    ensures captured { IfOk result
        (λ r. map seen_tree r.items ≡ shown_captures (map seen_tree kept.now) captures.now) }
{
    let mut captured = Vec::new(alloc);
    for capture in captures {
        captured.push(seen_in(kept, &capture.leaf))?;
    }
    Ok(captured)
}

/// The places of an environment.
pub fn seen_places<'a>(alloc: Global, places: &[usize]) -> Result<Vec<Seen<'a>>, AllocError>
    ensures seen { IfOk result (λ r. map seen_tree r.items ≡ map loc places.now) }
{
    let mut seen = Vec::new(alloc);
    for place in places {
        seen.push(Seen::Place(*place))?;
    }
    Ok(seen)
}

/// The term.
pub fn seen_term(alloc: Global, seen: Seen) -> Result<Term, AllocError>
    ensures term { IfOk result (λ r. tree_of r ≡ seen_tree seen.entry) }
{
    match seen {
        Seen::Place(place) => Ok(Term::Loc(place as u128, Mark::blank(alloc))),
        Seen::Name(name) => Ok(Term::Var(name.copy(alloc)?, Mark::blank(alloc))),
        Seen::Nothing => Ok(Term::Hole(Mark::blank(alloc))),
    }
}

//! Whole terms, lists of contexts, and objects of a store.

ghost use Rattle.std.specs.Prelude.{◌≡◌, map};
ghost use Rattle.std.specs.List.{list_all};
ghost use Rattle.asp_model.specs.Shapes.{tree_of};
ghost use Rattle.proper_terms.specs.Tests.{Tests};
ghost use Rattle.proper_terms.specs.Fits.{fits, method_fits, method_shape};

pub use crate::heads::check_stored as check_object;
use crate::refusal::Refusal;
use crate::walk::Walk;
use asp_model::{Method, Place, Term};
use std::alloc::Global;

/// The term is proper, with places below a size, and has at most so many holes.
pub fn check_term(alloc: Global, size: Place, holes: u32, term: &Term) -> Result<(), Refusal>
    ensures fits { Tests (fits size holes (tree_of term.now)) result }
{
    Walk::new(alloc, size, holes).visit(term)
}

/// So are these, each with one hole.
pub fn check_contexts(alloc: Global, size: Place, terms: &[Term]) -> Result<(), Refusal>
    ensures fit { Tests (list_all (fits size 1) (map tree_of terms.now)) result }
{
    for term in terms {
        check_term(alloc, size, 1, term)?;
    }
    Ok(())
}

fn check_method(alloc: Global, size: Place, method: &Method) -> Result<(), Refusal>
    ensures fits { Tests (method_fits size (method_shape method.now)) result }
{
    Walk::new(alloc, size, 0).visit_method(method)
}

/// The bodies of methods are proper under the names of their heads, with places below a size.
pub fn check_methods(alloc: Global, size: Place, methods: &[Method]) -> Result<(), Refusal>
    ensures fit { Tests (list_all (method_fits size) (map method_shape methods.now)) result }
{
    for method in methods {
        check_method(alloc, size, method)?;
    }
    Ok(())
}

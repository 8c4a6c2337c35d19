//! Nodes of a store, opened: ready to be compiled.

ghost use Rattle.std.specs.Prelude.{◌≡◌, [], IfOk};
ghost use Rattle.asp_model.specs.Shapes.{tree_of};
ghost use Rattle.frozen_code.specs.Held.{IsOpened};
ghost use Rattle.law_programs.specs.Proper.{IsProper};
ghost use Rattle.term_opening.specs.Opening.{done_in, emptied_node};

use crate::naming::Naming;
use crate::opening::empty_node;
use crate::terms::name_term;
use asp_model::Term;
use frozen_code::Opened;
use std::alloc::{AllocError, Global};

/// Opens a node: `[]` stands for each of its first terms that is done, and for its hole, and a
/// variable for each other place. A name that begins with a digit has no memory.
pub fn open(alloc: Global, term: Term) -> Result<Opened, AllocError>
    requires proper { IsProper [] (emptied_node (tree_of term)) }
    ensures opened { IfOk result (λ x. IsOpened x (emptied_node (tree_of term))) }
    ensures done { IfOk result (λ x. x.done.items ≡ done_in [] (tree_of term)) }
{
    let mut done = Vec::new(alloc);
    let left = empty_node(alloc, &mut done, term)?;
    let mut naming = Naming::new(alloc);
    let named = name_term(alloc, &mut naming, &left)?;
    if naming.clash() {
        return Err(AllocError);
    }
    let (names, places) = naming.into_names()?;
    Ok(Opened {
        term: named,
        names,
        places,
        done,
    })
}

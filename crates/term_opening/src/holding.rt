//! Contexts and redexes of a store, compiled.

ghost use Rattle.std.specs.Prelude.{IfOk, OnOk};
ghost use Rattle.asp_model.specs.Shapes.{tree_of};
ghost use Rattle.asp_model.specs.Split.{Context, Redex};
ghost use Rattle.code_compiler.specs.Compiled.{Grows};
ghost use Rattle.frozen_code.specs.Held.{HoldsContext, HoldsRedex};
ghost use Rattle.term_opening.specs.Holding.{IsContextTerm, IsRedexTerm, IsSomeContext, IsSomeRedex};

use crate::opened::open;
use asp_model::Term;
use code_table::Node;
use frozen_code::Held;
use std::alloc::{AllocError, Global};

/// Compiles a context, given as a term with a hole, behind the other nodes.
pub fn hold_context(alloc: Global, nodes: &mut Vec<Node>, term: Term) -> Result<Held, AllocError>
    requires context { IsSomeContext (tree_of term) }
    ensures grows { OnOk result (Grows nodes.old.items nodes.new.items) }
    ensures context { (c : Context) → IsContextTerm c (tree_of term) → let k = nodes.new.items in
        IfOk result (λ x. HoldsContext k x.node x.places.items x.done.items c) }
{
    let opened = open(alloc, term)?;
    Held::compile(alloc, nodes, opened)
}

/// Compiles a redex behind the other nodes.
pub fn hold_redex(alloc: Global, nodes: &mut Vec<Node>, term: Term) -> Result<Held, AllocError>
    requires redex { IsSomeRedex (tree_of term) }
    ensures grows { OnOk result (Grows nodes.old.items nodes.new.items) }
    ensures redex { (r : Redex) → IsRedexTerm r (tree_of term) → let k = nodes.new.items in
        IfOk result (λ x. HoldsRedex k x.node x.places.items x.done.items r) }
{
    let opened = open(alloc, term)?;
    Held::compile(alloc, nodes, opened)
}

//! Contexts and redexes, compiled.

ghost use Rattle.std.specs.Prelude.{◌≡◌, ◌≤◌, IfOk, OnOk, false, length};
ghost use Rattle.asp_model.specs.Shapes.{tree_of};
ghost use Rattle.asp_model.specs.Split.{Context, Redex};
ghost use Rattle.code_table.specs.Sound.{root_of};
ghost use Rattle.code_laws.specs.Splitting.{IsContext, IsRedex};
ghost use Rattle.code_compiler.specs.Closed.{IsClosed};
ghost use Rattle.code_compiler.specs.Compiled.{Grows};
ghost use Rattle.frozen_code.specs.Held.{
  HoldsContext,
  HoldsRedex,
  IsCompiled,
  IsOpened,
  context_left,
  is_variable,
  redex_left,
};

use asp_model::{Term, Word};
use code_compiler::{Scope, compile_term};
use code_table::{Node, Place};
use std::alloc::{AllocError, Global};

/// A context or a redex before it is compiled: `[]` stands for the hole and for each place before it,
/// and a variable for each other place.
#[derive(Drop)]
pub struct Opened {
    pub term: Term,
    /// The variables, each once.
    pub names: Vec<Word>,
    /// What they stand for.
    pub places: Vec<Place>,
    /// The places before the hole.
    pub done: Vec<Place>,
}

/// A node of the code that was made for a context or for a redex.
#[derive(Drop)]
pub struct Held {
    pub node: usize,
    /// Its environment.
    pub places: Vec<Place>,
    /// The places of its first terms.
    pub done: Vec<Place>,
}

/// The number of the last node.
fn last_number(nodes: &[Node]) -> usize
    requires some { 1 ≤ length nodes.now }
    ensures last { result ≡ root_of nodes.now }
{
    nodes.len() - 1
}

/// Compiles a term that is no variable. Its free variables are these names, as a body has captured
/// them. Answers the number of its node.
fn compile_under(
    alloc: Global,
    nodes: &mut Vec<Node>,
    names: &[Word],
    term: &Term,
) -> Result<usize, AllocError>
    requires closed { IsClosed names.now (tree_of term.now) }
    requires node { is_variable (tree_of term.now) ≡ false }
    ensures grows { OnOk result (Grows nodes.old.items nodes.new.items) }
    ensures compiled { let t = tree_of term.now in
        IfOk result (λ n. IsCompiled nodes.new.items n names.now t) }
{
    let scope = Scope {
        captured: names,
        bound: &[],
    };
    let mut uses = Vec::new(alloc);
    let mut children = Vec::new(alloc);
    compile_term(alloc, nodes, &scope, &mut uses, &mut children, term)?;
    Ok(last_number(nodes))
}

impl Held {
    /// Compiles a context or a redex behind the other nodes.
    pub fn compile(alloc: Global, nodes: &mut Vec<Node>, opened: Opened) -> Result<Held, AllocError>
        requires closed { IsClosed opened.names.items (tree_of opened.term) }
        requires node { is_variable (tree_of opened.term) ≡ false }
        ensures grows { OnOk result (Grows nodes.old.items nodes.new.items) }
        ensures context { (c : Context) → IsContext c → c.before ≡ opened.done.items →
            IsOpened opened (context_left c) → let k = nodes.new.items in
            IfOk result (λ x. HoldsContext k x.node x.places.items x.done.items c) }
        ensures redex { (r : Redex) → IsRedex r → r.places ≡ opened.done.items →
            IsOpened opened (redex_left r) → let k = nodes.new.items in
            IfOk result (λ x. HoldsRedex k x.node x.places.items x.done.items r) }
    {
        let Opened {
            term,
            names,
            places,
            done,
        } = opened;
        let node = compile_under(alloc, nodes, &names, &term)?;
        Ok(Held { node, places, done })
    }
}

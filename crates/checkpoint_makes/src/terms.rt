//! Terms that run, and terms that wait for the end of a service.

ghost use Rattle.std.specs.Prelude.{◌≡◌, ◌≤◌, ◌∷◌, IfOk, length, map, reverse};
ghost use Rattle.std.specs.Option.{option_map};
ghost use Rattle.asp_model.specs.Shapes.{future_shape, tree_of};
ghost use Rattle.code_table.specs.Cells.{held_future};
ghost use Rattle.law_steps.specs.Linked.{Each};
ghost use Rattle.checkpoint_parts.specs.Shapes.{running_shape, service_shape};
ghost use Rattle.checkpoint_makes.specs.Terms.{
  AreHeldFrom,
  AreMadeServices,
  AreSomeContexts,
  IsHeldInside,
  IsInside,
  IsMadeService,
  IsMadeTerm,
  RunsAs,
  WaitsAs,
};

use crate::cells::make_future;
use asp_model::{FutureName, Term};
use checkpoint_parts::ServiceText;
use code_table::{Future, Node};
use frozen_code::{Held, Innermost, Suspended};
use std::alloc::{AllocError, Global};
use std::sync::Arc;
use term_opening::{hold_context, hold_redex, place_of, short};

/// A term that runs: its contexts, the outermost first, and what stands inside them.
#[derive(Drop)]
pub struct MadeTerm {
    pub contexts: Vec<Held>,
    pub innermost: Innermost,
}

/// Makes a term that runs. Its contexts are compiled behind the other nodes.
pub fn make_term(
    alloc: Global,
    nodes: &mut Vec<Node>,
    terms: Vec<Term>,
) -> Result<MadeTerm, AllocError>
    requires runs { RunsAs (map tree_of terms.items) }
    ensures made { let t = running_shape (map tree_of terms.items) in
        IfOk result (λ x. IsMadeTerm nodes.old.items nodes.new.items x t) }
{
    let (first, contexts) = first_of(terms);
    let innermost = make_innermost(alloc, nodes, first)?;
    let held = make_contexts(alloc, nodes, contexts)?;
    let contexts = turned(alloc, held)?;
    Ok(MadeTerm {
        contexts,
        innermost,
    })
}

/// The first term of these, and the others.
fn first_of(mut terms: Vec<Term>) -> (Term, Vec<Term>)
    requires some { 1 ≤ length terms.items }
    ensures first { terms.items ≡ result.0 ∷ result.1.items }
{
    let first = terms.remove(0);
    (first, terms)
}

fn make_innermost(alloc: Global, nodes: &mut Vec<Node>, term: Term) -> Result<Innermost, AllocError>
    requires inside { IsInside (tree_of term) }
    ensures held { let t = tree_of term in
        IfOk result (λ x. IsHeldInside nodes.old.items nodes.new.items x t) }
{
    match place_of(&term) {
        Some(place) => {
            let at = short(place)?;
            Ok(Innermost::At(at))
        }
        None => {
            let held = hold_redex(alloc, nodes, term)?;
            Ok(Innermost::Redex(held))
        }
    }
}

/// Compiles contexts, in order.
fn make_contexts(
    alloc: Global,
    nodes: &mut Vec<Node>,
    terms: Vec<Term>,
) -> Result<Vec<Held>, AllocError>
    requires contexts { AreSomeContexts (map tree_of terms.items) }
    ensures held { let ts = map tree_of terms.items in
        IfOk result (λ v. AreHeldFrom nodes.old.items nodes.new.items v.items ts) }
{
    let mut helds = Vec::with_capacity(alloc, terms.len())?;
    for term in terms {
        helds.push(hold_context(alloc, nodes, term)?)?;
    }
    Ok(helds)
}

/// The last first.
fn turned(alloc: Global, helds: Vec<Held>) -> Result<Vec<Held>, AllocError>
    ensures turned { IfOk result (λ v. v.items ≡ reverse helds.items) }
{
    let mut left = helds;
    let mut turned = Vec::with_capacity(alloc, left.len())?;
    while let Some(held) = left.pop() {
        turned.push(held)?;
    }
    Ok(turned)
}

/// Makes a term that waits for the end of a service.
fn make_service(
    alloc: Global,
    nodes: &mut Vec<Node>,
    service: ServiceText,
) -> Result<Suspended, AllocError>
    requires waits { WaitsAs (map tree_of service.terms.items) }
    ensures made { let v = service_shape service in
        IfOk result (λ x. IsMadeService nodes.old.items nodes.new.items x v) }
{
    let ServiceText { terms, future } = service;
    let (_, contexts) = first_of(terms);
    let held = make_contexts(alloc, nodes, contexts)?;
    let contexts = turned(alloc, held)?;
    let future = make_answer(alloc, future)?;
    Ok(Suspended { contexts, future })
}

/// Makes the future that has to be answered, if there is one.
pub fn make_answer(
    alloc: Global,
    future: Option<FutureName>,
) -> Result<Option<Arc<Future>>, AllocError>
    ensures same { let f = option_map future_shape future in
        IfOk result (λ r. option_map held_future r ≡ f) }
{
    match future {
        Some(name) => Ok(Some(make_future(alloc, name)?)),
        None => Ok(None),
    }
}

/// Makes the terms that wait, the oldest first.
pub fn make_services(
    alloc: Global,
    nodes: &mut Vec<Node>,
    services: Vec<ServiceText>,
) -> Result<Vec<Suspended>, AllocError>
    requires wait { Each (λ s. WaitsAs (map tree_of s.terms.items)) services.items }
    ensures made { let vs = map service_shape services.items in
        IfOk result (λ v. AreMadeServices nodes.old.items nodes.new.items v.items vs) }
{
    let mut made = Vec::with_capacity(alloc, services.len())?;
    for service in services {
        made.push(make_service(alloc, nodes, service)?)?;
    }
    Ok(made)
}

//! Terms that run, as lists: a place alone, or a redex and then the contexts round it. Terms that
//! wait, as lists: a hole, and then the contexts round it.
#![tactic(auto, using(code_table::proofs::TermTrees::trees_are))]

ghost use Rattle.std.specs.Prelude.{◌≡◌, map};
ghost use Rattle.asp_model.specs.Shapes.{tree_of};
ghost use Rattle.asp_model.specs.Term.{trees};
ghost use Rattle.code_table.specs.Parts.{field_tree};
ghost use Rattle.checkpoint_text.specs.Reading.{
  list_of,
  running as running_in,
  some_of,
  term as term_in,
  waiting_of,
};
ghost use Rattle.checkpoint_items.specs.Answers.{Finds};
ghost use Rattle.checkpoint_parts.specs.Shapes.{contexts_shape, running_shape};
ghost use Rattle.checkpoint_files.specs.declared.running.Inner.TheVariants.{Place};
ghost use Rattle.checkpoint_files.specs.Running.{
  are_contexts,
  behind,
  child_of,
  first_of,
  first_open,
  inner_of,
  is_context_term,
  is_running,
  is_waiting,
  open_by,
};

use asp_model::{Label, Term};
use checkpoint_items::{Items, ReadError, read_count};
use checkpoint_reading::read_term;
use std::alloc::Global;

/// What a term is, by those of its terms that are reduced in place.
#[derive(Clone, Copy)]
pub enum Inner {
    /// It is a place.
    Place,
    /// All of them are places.
    Redex,
    /// The first that is no place is a hole.
    Context,
    /// The first that is no place is another term.
    Open,
}

/// The terms of a running one.
pub fn read_running(alloc: Global, items: &mut Items<'_>) -> Result<Vec<Term>, ReadError>
    ensures read { let reader = running_in in
        Finds (λ v. running_shape (map tree_of v.items)) (reader items.old) items.new result }
{
    let terms = read_terms(alloc, items)?;
    if runs(&terms) {
        Ok(terms)
    } else {
        Err(ReadError::Malformed)
    }
}

/// The terms of a waiting one: a hole, and then its contexts.
pub fn read_waiting(alloc: Global, items: &mut Items<'_>) -> Result<Vec<Term>, ReadError>
    ensures read { let reader = some_of (list_of term_in) waiting_of in
        Finds (λ v. contexts_shape (map tree_of v.items)) (reader items.old) items.new result }
{
    let terms = read_terms(alloc, items)?;
    if waits(&terms) {
        Ok(terms)
    } else {
        Err(ReadError::Malformed)
    }
}

fn read_terms(alloc: Global, items: &mut Items<'_>) -> Result<Vec<Term>, ReadError>
    ensures read { Finds (λ v. map tree_of v.items) (list_of term_in items.old) items.new result }
{
    let count = read_count(items)?;
    let mut terms = Vec::new(alloc);
    for _ in 0..count {
        terms.push(read_term(alloc, items)?)?;
    }
    Ok(terms)
}

/// The terms are a place alone, or a redex and then the contexts round it.
#[tactic(auto, using(crate::proofs::RunningLemmas::place_alone))]
pub fn runs(terms: &[Term]) -> bool
    ensures running { result ≡ is_running (map tree_of terms.now) }
{
    match terms {
        [] => false,
        [first, contexts @ ..] => match inner_of(first) {
            Inner::Place => contexts.is_empty(),
            Inner::Redex => are_contexts(contexts),
            Inner::Context | Inner::Open => false,
        },
    }
}

/// The terms are a hole, and then the contexts round it.
#[tactic(auto)]
pub fn waits(terms: &[Term]) -> bool
    ensures waiting { result ≡ is_waiting (map tree_of terms.now) }
{
    match terms {
        [] => false,
        [first, contexts @ ..] => match child_of(first) {
            Inner::Context => are_contexts(contexts),
            Inner::Place | Inner::Redex | Inner::Open => false,
        },
    }
}

fn are_contexts(terms: &[Term]) -> bool
    ensures contexts { result ≡ are_contexts (map tree_of terms.now) }
{
    terms.iter().all(|term| is_context(term))
}

fn is_context(term: &Term) -> bool
    ensures context { result ≡ is_context_term term.now }
{
    match inner_of(term) {
        Inner::Context => true,
        Inner::Place | Inner::Redex | Inner::Open => false,
    }
}

// What a term is among those before which there are places alone.
fn child_of(term: &Term) -> Inner
    ensures child { result ≡ child_of (tree_of term.now) }
{
    match term {
        Term::Loc(_, _) => Inner::Place,
        Term::Hole(_) => Inner::Context,
        Term::Var(_, _)
        | Term::Number(_, _)
        | Term::Make { .. }
        | Term::Get(_, _, _)
        | Term::Put(_, _, _, _)
        | Term::Call(_, _, _, _)
        | Term::Clone(_, _)
        | Term::Active(_, _, _)
        | Term::Serve(_, _)
        | Term::Let(_, _, _, _)
        | Term::Steps(_, _)
        | Term::If(_, _, _, _)
        | Term::Repeat(_, _)
        | Term::Operate(_, _, _, _)
        | Term::Print(_, _)
        | Term::Echo(_, _)
        | Term::Group(_, _)
        | Term::Scatter(_, _, _, _)
        | Term::Size(_, _)
        | Term::Member(_, _, _)
        | Term::WaitAll(_, _)
        | Term::Pending(_, _) => Inner::Open,
    }
}

fn behind(first: Inner, rest: Inner) -> Inner
    ensures first { result ≡ behind first rest }
{
    match first {
        Inner::Place => rest,
        Inner::Redex | Inner::Context | Inner::Open => first,
    }
}

fn first_open(terms: &[Term]) -> Inner
    ensures first { result ≡ open_by tree_of Place terms.now }
{
    let mut first = Inner::Place;
    for term in terms {
        first = behind(first, child_of(term));
    }
    behind(first, Inner::Redex)
}

fn first_open_field(fields: &[(Label, Term)]) -> Inner
    ensures first { result ≡ open_by field_tree Place fields.now }
{
    let mut first = Inner::Place;
    for field in fields {
        first = behind(first, child_of(&field.1));
    }
    behind(first, Inner::Redex)
}

// Of a sequence the first term alone is reduced in place.
fn first_step(steps: &[Term]) -> Inner
    ensures first { result ≡ first_open (first_of 1 (trees (map tree_of steps.now))) }
{
    match steps {
        [] => Inner::Redex,
        [first, ..] => behind(child_of(first), Inner::Redex),
    }
}

#[tactic(auto, using(code_table::proofs::TermTrees::trees_are, crate::proofs::RunningLemmas::opens))]
fn inner_of(term: &Term) -> Inner
    ensures inner { result ≡ inner_of (tree_of term.now) }
{
    match term {
        Term::Loc(_, _) => Inner::Place,
        Term::Hole(_)
        | Term::Var(_, _)
        | Term::Number(_, _)
        | Term::Serve(_, _)
        | Term::Pending(_, _)
        | Term::Echo(_, _)
        | Term::Repeat(_, _) => Inner::Redex,
        Term::Make { fields, .. } => first_open_field(fields),
        Term::Get(only, _, _)
        | Term::Clone(only, _)
        | Term::Active(only, _, _)
        | Term::Let(_, only, _, _)
        | Term::If(only, _, _, _)
        | Term::Print(only, _)
        | Term::Size(only, _)
        | Term::WaitAll(only, _) => behind(child_of(only), Inner::Redex),
        Term::Put(first, _, second, _)
        | Term::Operate(_, first, second, _)
        | Term::Scatter(first, _, second, _)
        | Term::Member(first, second, _) => {
            behind(child_of(first), behind(child_of(second), Inner::Redex))
        }
        Term::Call(receiver, _, arguments, _) => {
            behind(child_of(receiver), first_open(arguments))
        }
        Term::Steps(steps, _) => first_step(steps),
        Term::Group(members, _) => first_open(members),
    }
}

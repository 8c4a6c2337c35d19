//! Terms as lists: the redex and its contexts, or the place that a term is.
#![tactic(auto, using(checkpoint_text::proofs::WritingLemmas::writing))]

ghost use Rattle.std.specs.Prelude.{◌≡◌, List, OnOk, map};
ghost use Rattle.asp_model.specs.Configuration.{ServiceShape};
ghost use Rattle.asp_model.specs.Shapes.{tree_of};
ghost use Rattle.asp_model.specs.Term.{Tree, trees};
ghost use Rattle.checkpoint_text.specs.Items.{running_items};
ghost use Rattle.checkpoint_text.specs.Writing.{Adds};
ghost use Rattle.code_reading.specs.Shown.{IsShown, ServiceTerms};
ghost use Rattle.frozen_runs.specs.Redexes.{
  are_places,
  is_bare,
  is_bare_field,
  is_bare_term,
  is_redex_tree,
  is_split,
};
ghost use Rattle.std.specs.List.{list_all};

use crate::services::put_terms;
use asp_model::{Label, Term};
use code_reading::DecodeError;

/// Writes the term of a machine that has settled: its redex, or its place, and then the contexts.
/// `Unfit` is for one that has not.
pub fn put_running(text: &mut String, terms: &[Term]) -> Result<(), DecodeError>
    ensures adds { (t : Tree) (vs : List ServiceShape) (shown : List ServiceTerms) →
        IsShown t vs (map tree_of terms.now) shown →
        OnOk result (Adds text.old (running_items t) text.new) }
{
    if !have_settled(terms) {
        return Err(DecodeError::Unfit);
    }
    put_terms(text, terms)?;
    Ok(())
}

// The first is a redex, or there is one alone, which is a place.
fn have_settled(terms: &[Term]) -> bool
    ensures split { result ≡ is_split (map tree_of terms.now) }
{
    match terms {
        [] => false,
        [only] => is_redex(only) || is_place(only),
        [first, ..] => is_redex(first),
    }
}

#[tactic(auto, using(code_table::proofs::TermTrees::trees_are))]
fn is_place(term: &Term) -> bool
    ensures bare { result ≡ is_bare (tree_of term.now) }
{
    match term {
        Term::Loc(_, _) => true,
        Term::Hole(_)
        | Term::Var(_, _)
        | Term::Number(_, _)
        | Term::Make { .. }
        | Term::Get(_, _, _)
        | Term::Put(_, _, _, _)
        | Term::Call(_, _, _, _)
        | Term::Clone(_, _)
        | Term::Active(_, _, _)
        | Term::Serve(_, _)
        | Term::Let(_, _, _, _)
        | Term::Steps(_, _)
        | Term::If(_, _, _, _)
        | Term::Repeat(_, _)
        | Term::Operate(_, _, _, _)
        | Term::Print(_, _)
        | Term::Echo(_, _)
        | Term::Group(_, _)
        | Term::Scatter(_, _, _, _)
        | Term::Size(_, _)
        | Term::Member(_, _, _)
        | Term::WaitAll(_, _)
        | Term::Pending(_, _) => false,
    }
}

fn are_places(terms: &[Term]) -> bool
    ensures bare { result ≡ list_all is_bare_term terms.now }
{
    terms.iter().all(|term| is_place(term))
}

fn have_places(fields: &[(Label, Term)]) -> bool
    ensures bare { result ≡ list_all is_bare_field fields.now }
{
    fields.iter().all(|field| is_place(&field.1))
}

// Of a sequence the first term alone is reduced in place.
fn begin_with_place(steps: &[Term]) -> bool
    ensures bare { result ≡ are_places 1 (trees (map tree_of steps.now)) }
{
    match steps {
        [] => true,
        [first, ..] => is_place(first),
    }
}

// Whether all terms of a node that are reduced in place are places.
#[tactic(auto, using(code_table::proofs::TermTrees::trees_are, crate::proofs::RedexLemmas::places))]
fn is_redex(term: &Term) -> bool
    ensures redex { result ≡ is_redex_tree (tree_of term.now) }
{
    match term {
        Term::Loc(_, _) => false,
        Term::Hole(_)
        | Term::Var(_, _)
        | Term::Number(_, _)
        | Term::Serve(_, _)
        | Term::Pending(_, _)
        | Term::Echo(_, _)
        | Term::Repeat(_, _) => true,
        Term::Make { fields, .. } => have_places(fields),
        Term::Get(only, _, _)
        | Term::Clone(only, _)
        | Term::Active(only, _, _)
        | Term::Let(_, only, _, _)
        | Term::If(only, _, _, _)
        | Term::Print(only, _)
        | Term::Size(only, _)
        | Term::WaitAll(only, _) => is_place(only),
        Term::Put(first, _, second, _)
        | Term::Operate(_, first, second, _)
        | Term::Scatter(first, _, second, _)
        | Term::Member(first, second, _) => is_place(first) && is_place(second),
        Term::Call(receiver, _, arguments, _) => is_place(receiver) && are_places(arguments),
        Term::Steps(steps, _) => begin_with_place(steps),
        Term::Group(members, _) => are_places(members),
    }
}

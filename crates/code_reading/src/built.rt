//! Terms over the terms below them.

ghost use Rattle.std.specs.Prelude.{◌≡◌, IfOk, [], map};
ghost use Rattle.asp_model.specs.Term.{Make, more, node, none, trees};
ghost use Rattle.asp_model.specs.Shapes.{tree_of};
ghost use Rattle.code_table.specs.Tables.{kind_head, text_of};
ghost use Rattle.code_reading.specs.Decoded.{trees_then};
ghost use Rattle.code_table.specs.Parts.{body_tree, field_label, field_tree, method_head};

use crate::copies::{copy_labels, copy_service};
use crate::errors::DecodeError;
use crate::split::{both, first_of, only};
use asp_model::{Label, Mark, Method, Term};
use code_table::Kind;
use std::alloc::Global;

/// A node over these terms.
#[tactic(auto, using(code_table::proofs::TermTrees::rows_are))]
pub fn built(alloc: Global, kind: &Kind, terms: Vec<Term>) -> Result<Term, DecodeError>
    ensures term { IfOk result
        (λ r. tree_of r ≡ node (kind_head kind.now) (trees (map tree_of terms.items))) }
{
    match kind {
        Kind::Number(_) | Kind::Serve(_) | Kind::Pending(_) | Kind::Echo(_) => {
            if !terms.is_empty() {
                return Err(DecodeError::Unfit);
            }
            over_none(alloc, kind)
        }
        Kind::Put(_) | Kind::Let(_) | Kind::Operate(_) | Kind::Scatter(_) | Kind::Member => {
            let (first, second) = both(alloc, terms)?;
            over_two(alloc, kind, first, second)
        }
        Kind::Call(_) | Kind::If => match first_of(terms) {
            Some((first, others)) => over_first(alloc, kind, first, others),
            None => Err(DecodeError::Unfit),
        },
        Kind::Steps => Ok(Term::Steps(terms, Mark::blank(alloc))),
        Kind::Group => Ok(Term::Group(terms, Mark::blank(alloc))),
        _ => match only(terms) {
            Some(term) => over_one(alloc, kind, term),
            None => Err(DecodeError::Unfit),
        },
    }
}

#[tactic(auto, using(code_table::proofs::TermTrees::leaves_are))]
fn over_none(alloc: Global, kind: &Kind) -> Result<Term, DecodeError>
    ensures term { IfOk result (λ r. tree_of r ≡ node (kind_head kind.now) none) }
{
    match kind {
        Kind::Number(n) => Ok(Term::Number(*n, Mark::blank(alloc))),
        Kind::Serve(labels) => {
            let labels = copy_labels(alloc, labels)?;
            Ok(Term::Serve(labels, Mark::blank(alloc)))
        }
        Kind::Pending(labels) => {
            let labels = copy_labels(alloc, labels)?;
            Ok(Term::Pending(labels, Mark::blank(alloc)))
        }
        Kind::Echo(text) => {
            let text = text.copy(alloc)?;
            Ok(Term::Echo(text, Mark::blank(alloc)))
        }
        _ => Err(DecodeError::Unfit),
    }
}

#[tactic(auto, using(code_table::proofs::TermTrees::ones_are))]
fn over_one(alloc: Global, kind: &Kind, term: Term) -> Result<Term, DecodeError>
    ensures term { IfOk result
        (λ r. tree_of r ≡ node (kind_head kind.now) (more (tree_of term) none)) }
{
    let term = Box::new(alloc, term)?;
    match kind {
        Kind::Get(label) => {
            let label = label.label.as_label().copy(alloc)?;
            Ok(Term::Get(term, label, Mark::blank(alloc)))
        }
        Kind::Clone => Ok(Term::Clone(term, Mark::blank(alloc))),
        Kind::Active(service) => {
            let service = copy_service(alloc, service)?;
            Ok(Term::Active(term, service, Mark::blank(alloc)))
        }
        Kind::Repeat => Ok(Term::Repeat(term, Mark::blank(alloc))),
        Kind::Print => Ok(Term::Print(term, Mark::blank(alloc))),
        Kind::Size => Ok(Term::Size(term, Mark::blank(alloc))),
        Kind::WaitAll => Ok(Term::WaitAll(term, Mark::blank(alloc))),
        _ => Err(DecodeError::Unfit),
    }
}

#[tactic(auto, using(code_table::proofs::TermTrees::twos_are))]
fn over_two(
    alloc: Global,
    kind: &Kind,
    first: Box<Term>,
    second: Box<Term>,
) -> Result<Term, DecodeError>
    ensures term { let below = more (tree_of first.value) (more (tree_of second.value) none) in
        IfOk result (λ r. tree_of r ≡ node (kind_head kind.now) below) }
{
    match kind {
        Kind::Put(label) => {
            let label = label.label.as_label().copy(alloc)?;
            Ok(Term::Put(first, label, second, Mark::blank(alloc)))
        }
        Kind::Let(name) => {
            let name = name.copy(alloc)?;
            Ok(Term::Let(name, first, second, Mark::blank(alloc)))
        }
        Kind::Operate(sign) => Ok(Term::Operate(*sign, first, second, Mark::blank(alloc))),
        Kind::Scatter(label) => {
            let label = label.label.as_label().copy(alloc)?;
            Ok(Term::Scatter(first, label, second, Mark::blank(alloc)))
        }
        Kind::Member => Ok(Term::Member(first, second, Mark::blank(alloc))),
        _ => Err(DecodeError::Unfit),
    }
}

#[tactic(auto, using(code_table::proofs::TermTrees::others_are))]
fn over_first(
    alloc: Global,
    kind: &Kind,
    first: Term,
    others: Vec<Term>,
) -> Result<Term, DecodeError>
    ensures term { IfOk result (λ r. tree_of r
        ≡ node (kind_head kind.now) (more (tree_of first) (trees (map tree_of others.items)))) }
{
    let first = Box::new(alloc, first)?;
    match kind {
        Kind::Call(label) => {
            let label = label.label.as_label().copy(alloc)?;
            Ok(Term::Call(first, label, others, Mark::blank(alloc)))
        }
        Kind::If => {
            let (second, third) = both(alloc, others)?;
            Ok(Term::If(first, second, third, Mark::blank(alloc)))
        }
        _ => Err(DecodeError::Unfit),
    }
}

/// An object with these labels over the terms of its fields, and these methods.
#[tactic(auto, using(code_table::proofs::TermTrees::trees_are))]
pub fn object(
    alloc: Global,
    labels: &[Label],
    terms: Vec<Term>,
    methods: Vec<Method>,
) -> Result<Term, DecodeError>
    ensures term { IfOk result (λ r. tree_of r
        ≡ node (Make (map text_of labels.now) (map method_head methods.items))
        (trees_then (map tree_of terms.items) (trees (map body_tree methods.items)))) }
{
    let fields = labelled(alloc, labels, terms)?;
    Ok(Term::Make {
        fields,
        methods,
        mark: Mark::blank(alloc),
    })
}

fn labelled(
    alloc: Global,
    labels: &[Label],
    mut terms: Vec<Term>,
) -> Result<Vec<(Label, Term)>, DecodeError>
    ensures labels { IfOk result (λ r. map field_label r.items ≡ map text_of labels.now) }
    ensures terms { IfOk result (λ r. map field_tree r.items ≡ map tree_of terms.items) }
{
    terms.reverse();
    let mut fields = Vec::new(alloc);
    for label in labels {
        let label = label.copy(alloc)?;
        match terms.pop() {
            Some(term) => fields.push((label, term))?,
            None => return Err(DecodeError::Unfit),
        }
    }
    if terms.is_empty() {
        Ok(fields)
    } else {
        Err(DecodeError::Unfit)
    }
}

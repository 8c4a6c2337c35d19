//! The terms that a machine stands for: of a child, of a node, and of a frame.

ghost use Rattle.std.specs.Prelude.{◌≡◌, ◌<◌, ◌≤◌, ◌++◌, drop, length, map, IfOk};
ghost use Rattle.asp_model.specs.Term.{Call, Steps, loc, node, trees};
ghost use Rattle.asp_model.specs.Shapes.{tree_of};
ghost use Rattle.code_table.specs.Sound.{AllBelow, IsBelow, KindBelow};
ghost use Rattle.code_table.specs.Tables.{piece_at, piece_of, pieces, pieces_of};
ghost use Rattle.code_laws.specs.Nodes.{later};
ghost use Rattle.code_reading.specs.Decoded.{
  IsBehind,
  IsContextIn,
  IsRedexIn,
  IsRolled,
  IsTermIn,
  finished_tree,
  gone,
  rolled_tree,
  seen_tree,
  shown_child,
};

use crate::decoder::{child_term, finished, node_term, push_terms};
use crate::errors::DecodeError;
use crate::seen::{Seen, seen_places};
use crate::split::first_of;
use asp_model::{Label, Mark, Term};
use code_table::{Child, Code, Kind, Node};
use std::alloc::{AllocError, Global};

/// The term that a child stands for in an environment of these places.
pub fn term_of(
    alloc: Global,
    code: &Code,
    places: &[usize],
    child: &Child,
) -> Result<Term, DecodeError>
    requires below { IsBelow (length code.now) child.now }
    ensures term { let p = piece_of (pieces code.now) child.now in
        IfOk result (λ r. IsTermIn places.now p (tree_of r)) }
    ensures shown { let p = pieces code.now in
        IfOk result (λ r. tree_of r ≡ shown_child (map loc places.now) p child.now) }
{
    let kept = seen_places(alloc, places)?;
    child_term(alloc, code, &kept, child)
}

/// The term of a node whose first terms are done, in an environment of these places. A sequence may
/// have lost its first terms before, and a `repeat` may have become a sequence: `from` says how many
/// are gone.
pub fn redex_of(
    alloc: Global,
    code: &Code,
    places: &[usize],
    number: usize,
    from: usize,
    done: &[usize],
) -> Result<Term, DecodeError>
    requires within { number < length code.now }
    ensures redex { let p = later from (piece_at (pieces code.now) number) in
        IfOk result (λ r. IsRedexIn places.now done.now p (tree_of r)) }
{
    let kept = seen_places(alloc, places)?;
    let terms = locations(alloc, done)?;
    node_behind(alloc, code, &kept, number, from, terms)
}

/// The same, with a hole in the place of the next term.
pub fn context_of(
    alloc: Global,
    code: &Code,
    places: &[usize],
    number: usize,
    from: usize,
    done: &[usize],
) -> Result<Term, DecodeError>
    requires within { number < length code.now }
    ensures context { let p = later from (piece_at (pieces code.now) number) in
        IfOk result (λ r. IsContextIn places.now done.now p (tree_of r)) }
{
    let kept = seen_places(alloc, places)?;
    let mut terms = locations(alloc, done)?;
    terms.push(Term::Hole(Mark::blank(alloc)))?;
    node_behind(alloc, code, &kept, number, from, terms)
}

fn locations(alloc: Global, places: &[usize]) -> Result<Vec<Term>, AllocError>
    ensures locations { IfOk result (λ r. map tree_of r.items ≡ map loc places.now) }
{
    let mut terms = Vec::new(alloc);
    for place in places {
        terms.push(location(alloc, *place))?;
    }
    Ok(terms)
}

/// A place as a term.
#[tactic(auto, using(code_table::proofs::TermTrees::trees_are))]
pub fn location(alloc: Global, place: usize) -> Term
    ensures location { tree_of result ≡ loc place }
{
    Term::Loc(place as u128, Mark::blank(alloc))
}

/// A call of these places, the receiver first. `Unfit` where there is none.
#[tactic(auto, using(code_table::proofs::TermTrees::trees_are))]
pub fn call_of(alloc: Global, label: &Label, places: &[usize]) -> Result<Term, DecodeError>
    ensures call { IfOk result
        (λ r. tree_of r ≡ node (Call label.now.text) (trees (map loc places.now))) }
{
    let terms = locations(alloc, places)?;
    match first_of(terms) {
        Some((receiver, arguments)) => {
            let receiver = Box::new(alloc, receiver)?;
            let label = label.copy(alloc)?;
            Ok(Term::Call(receiver, label, arguments, Mark::blank(alloc)))
        }
        None => Err(DecodeError::Unfit),
    }
}

/// A node over its first terms, and those of its code that stand behind them.
fn node_behind<'a>(
    alloc: Global,
    code: &'a Code,
    kept: &[Seen<'a>],
    number: usize,
    from: usize,
    terms: Vec<Term>,
) -> Result<Term, DecodeError>
    requires within { number < length code.now }
    ensures behind { let p = later from (piece_at (pieces code.now) number) in
        IfOk result (λ r. IsBehind (map seen_tree kept.now) p (map tree_of terms.items) (tree_of r)) }
{
    let node = &code.nodes()[number];
    match gone_in(&node.kind, from) {
        Some(gone) => ordinary(alloc, code, kept, node, number, gone, terms),
        None => rolled(alloc, code, kept, node, number, terms),
    }
}

/// How many of a node's terms are gone; none is told of a `repeat` that has become a sequence.
fn gone_in(kind: &Kind, from: usize) -> Option<usize>
    ensures gone { result ≡ gone kind.now from }
{
    match kind {
        Kind::Steps => Some(from),
        Kind::Repeat => { if from == 0 { Some(0) } else { None } }
        _ => Some(0),
    }
}

/// A node over its first terms, and those of its code behind as many and the ones that are gone.
fn ordinary<'a>(
    alloc: Global,
    code: &'a Code,
    kept: &[Seen<'a>],
    node: &'a Node,
    number: usize,
    gone: usize,
    mut terms: Vec<Term>,
) -> Result<Term, DecodeError>
    requires children { AllBelow number node.now.children.items }
    requires methods { KindBelow number node.now.kind }
    requires within { number ≤ length code.now }
    ensures term { let left = drop (length terms.items) (drop gone node.now.children.items) in
        let ts = map seen_tree kept.now in let ps = pieces code.now in
        let all = map tree_of terms.items ++ map (shown_child ts ps) left in
        IfOk result (λ r. tree_of r ≡ finished_tree ts ps node.now.kind all) }
{
    let behind = children_from(children_from(&node.children, gone), terms.len());
    push_terms(alloc, code, kept, behind, number, &mut terms)?;
    finished(alloc, code, kept, &node.kind, number, terms)
}

fn children_from(children: &[Child], from: usize) -> &[Child]
    ensures children { result.now ≡ drop from children.now }
{
    if from < children.len() {
        &children[from..]
    } else {
        &[]
    }
}

/// A `repeat` that has become a sequence: its term, and then itself.
fn rolled<'a>(
    alloc: Global,
    code: &'a Code,
    kept: &[Seen<'a>],
    node: &'a Node,
    number: usize,
    mut terms: Vec<Term>,
) -> Result<Term, DecodeError>
    requires children { AllBelow number node.now.children.items }
    requires within { number < length code.now }
    ensures rolled { let below = pieces_of (pieces code.now) node.now.children.items in
        IfOk result (λ r. IsRolled (map seen_tree kept.now) below (piece_at (pieces code.now) number)
        (map tree_of terms.items) (tree_of r)) }
{
    if terms.is_empty() {
        match node.children.first() {
            Some(child) => {
                terms.push(child_term(alloc, code, kept, child)?)?;
                with_itself(alloc, code, kept, number, terms)
            }
            None => Err(DecodeError::Unfit),
        }
    } else if terms.len() == 1 {
        with_itself(alloc, code, kept, number, terms)
    } else {
        sequence(alloc, terms)
    }
}

fn with_itself<'a>(
    alloc: Global,
    code: &'a Code,
    kept: &[Seen<'a>],
    number: usize,
    mut terms: Vec<Term>,
) -> Result<Term, DecodeError>
    requires within { number < length code.now }
    ensures rolled { let itself = piece_at (pieces code.now) number in
        IfOk result (λ r. tree_of r
        ≡ rolled_tree (map seen_tree kept.now) itself (map tree_of terms.items)) }
{
    terms.push(node_term(alloc, code, kept, number)?)?;
    sequence(alloc, terms)
}

#[tactic(auto, using(code_table::proofs::TermTrees::trees_are))]
fn sequence(alloc: Global, terms: Vec<Term>) -> Result<Term, DecodeError>
    ensures term { IfOk result (λ r. tree_of r ≡ node Steps (trees (map tree_of terms.items))) }
{
    Ok(Term::Steps(terms, Mark::blank(alloc)))
}

//! The terms of groups of calls: what a call on a group, or a `scatter`, has become.

ghost use Rattle.std.specs.Prelude.{◌≡◌, ◌∷◌, ◌++◌, [], IfOk, IfSome, List, drop, length, map, ℕ};
ghost use Rattle.asp_model.specs.Shapes.{tree_of};
ghost use Rattle.asp_model.specs.Split.{Context};
ghost use Rattle.asp_model.specs.Term.{Tree, loc};
ghost use Rattle.code_table.specs.declared.code.Node.{Node as NodeShape};
ghost use Rattle.code_table.specs.Tables.{piece_at, pieces};
ghost use Rattle.code_laws.specs.Nodes.{in_place};
ghost use Rattle.step_machine.specs.Calls.{
  IsCalled,
  IsCalling,
  IsDealt,
  IsLaid,
  called_label,
  round_in,
  rounds,
};
ghost use Rattle.code_reading.specs.Groups.{call_trees};
ghost use Rattle.code_reading.specs.Shown.{hole_tree};

use crate::cursor::last_of;
use crate::errors::DecodeError;
use crate::terms::{call_of, location};
use asp_model::{Label, Mark, Term};
use code_table::Code;
use std::alloc::{AllocError, Global};
use step_machine::{Round, Spread, call_label, in_place_count, node_at, results_in, round_at};

/// What is found of a group of calls: the label, how many operands its node was given, and the results.
#[derive(Clone, Copy)]
struct Found<'a> {
    label: &'a Label,
    given: usize,
    results: &'a [usize],
}

fn found_in<'a>(
    code: &'a Code,
    spread: Spread,
    number: usize,
    members: usize,
    own: &'a [usize],
) -> Option<Found<'a>>
    ensures label { let p = piece_at (pieces code.now) number in
        IfSome result (λ x. called_label p ≡ x.label.now.text) }
    ensures given { let p = piece_at (pieces code.now) number in
        IfSome result (λ x. x.given ≡ in_place p) }
    ensures results { (l : IsLaid code.now spread number members own.now) →
        IfSome result (λ x. x.results.now ≡ l.results) }
{
    let nodes = code.nodes();
    let Some(node) = node_at(nodes, number) else {
        return None;
    };
    let Some(label) = call_label(node) else {
        return None;
    };
    let given = in_place_count(node, 0);
    let Some(count) = results_in(spread, given, members, own.len()) else {
        return None;
    };
    let results = last_of(own, count);
    Some(Found {
        label: label.label.as_label(),
        given,
        results,
    })
}

/// The places of a call.
fn places_of(alloc: Global, own: &[usize], round: Round) -> Result<Vec<usize>, DecodeError>
    ensures places { IfOk result (λ ns. ns.items ≡ round_in round own.now) }
{
    if round.receiver >= own.len() || round.first > round.end || round.end > own.len() {
        return Err(DecodeError::Unfit);
    }
    let mut places = Vec::new(alloc);
    places.push(own[round.receiver])?;
    places.extend_from_slice(&own[round.first..round.end])?;
    Ok(places)
}

/// Puts the calls behind the first ones to these terms.
fn with_calls(
    alloc: Global,
    spread: Spread,
    members: usize,
    found: Found,
    own: &[usize],
    first: usize,
    before: Vec<Term>,
) -> Result<Vec<Term>, DecodeError>
    ensures calls { (k : List NodeShape) (number : ℕ) (l : IsLaid k spread number members own.now) →
        length l.given ≡ found.entry.given →
        let left = drop first (rounds spread l.given l.receivers l.beside) in
        IfOk result (λ ts. map tree_of ts.items
        ≡ map tree_of before.items ++ call_trees found.entry.label.now.text left) }
{
    let mut terms = before;
    for i in first..members {
        let Some(round) = round_at(spread, 0, found.given, members, i) else {
            return Err(DecodeError::Unfit);
        };
        let places = places_of(alloc, own, round)?;
        terms.push(call_of(alloc, found.label, &places)?)?;
    }
    Ok(terms)
}

fn locations(alloc: Global, places: &[usize]) -> Result<Vec<Term>, AllocError>
    ensures locations { IfOk result (λ ts. map tree_of ts.items ≡ map loc places.now) }
{
    let mut terms = Vec::new(alloc);
    for place in places {
        terms.push(location(alloc, *place))?;
    }
    Ok(terms)
}

/// A group of calls, of which the first have their results.
#[tactic(auto, using(code_table::proofs::TermTrees::trees_are))]
pub fn dealt_term(
    alloc: Global,
    code: &Code,
    spread: Spread,
    number: usize,
    members: usize,
    own: &[usize],
) -> Result<Term, DecodeError>
    ensures term { (t : Tree) → IsDealt code.now spread own.now number members t →
        IfOk result (λ r. tree_of r ≡ t) }
{
    let Some(found) = found_in(code, spread, number, members, own) else {
        return Err(DecodeError::Unfit);
    };
    let results = locations(alloc, found.results)?;
    let first = found.results.len();
    let terms = with_calls(alloc, spread, members, found, own, first, results)?;
    Ok(Term::Group(terms, Mark::blank(alloc)))
}

/// The same, with a hole in the place of the next call.
#[tactic(auto, using(code_table::proofs::TermTrees::trees_are))]
pub fn calling_term(
    alloc: Global,
    code: &Code,
    spread: Spread,
    number: usize,
    members: usize,
    own: &[usize],
) -> Result<Term, DecodeError>
    ensures context { (c : Context) → IsCalling code.now spread own.now number members c →
        IfOk result (λ r. tree_of r ≡ hole_tree c) }
{
    let Some(found) = found_in(code, spread, number, members, own) else {
        return Err(DecodeError::Unfit);
    };
    let mut results = locations(alloc, found.results)?;
    results.push(Term::Hole(Mark::blank(alloc)))?;
    let Some(first) = found.results.len().checked_add(1) else {
        return Err(DecodeError::Unfit);
    };
    let terms = with_calls(alloc, spread, members, found, own, first, results)?;
    Ok(Term::Group(terms, Mark::blank(alloc)))
}

/// The call of a member.
pub fn called_term(
    alloc: Global,
    code: &Code,
    number: usize,
    own: &[usize],
) -> Result<Term, DecodeError>
    ensures term { (t : Tree) → IsCalled code.now own.now number t →
        IfOk result (λ r. tree_of r ≡ t) }
{
    let nodes = code.nodes();
    let Some(node) = node_at(nodes, number) else {
        return Err(DecodeError::Unfit);
    };
    let Some(label) = call_label(node) else {
        return Err(DecodeError::Unfit);
    };
    call_of(alloc, label.label.as_label(), own)
}

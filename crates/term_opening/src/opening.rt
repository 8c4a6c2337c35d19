//! The first terms of a node, taken out as far as they are done.
#![tactic(auto, using(crate::proofs::EmptiedLemmas::done_laws))]

ghost use Rattle.std.specs.Prelude.{◌≡◌, [], map, true, IfOk, OnOk};
ghost use Rattle.asp_model.specs.Shapes.{tree_of};
ghost use Rattle.code_table.specs.Parts.{field_label, field_tree};
ghost use Rattle.frozen_code.specs.Held.{filler};
ghost use Rattle.term_opening.specs.Opening.{
  done_all,
  done_at,
  done_in,
  done_step,
  emptied,
  emptied_all,
  emptied_node,
  emptied_step,
  goes_on,
  place_in,
};

use crate::naming::short;
use asp_model::{Label, Mark, Term};
use code_table::Place;
use std::alloc::{AllocError, Global};

/// The node with `[]` in the place of each term that is done, and of the hole, if they are reduced in
/// place. The places of those that are done come behind the others.
pub fn empty_node(alloc: Global, done: &mut Vec<Place>, term: Term) -> Result<Term, AllocError>
    ensures emptied { IfOk result (λ t. tree_of t ≡ emptied_node (tree_of term)) }
    ensures done { OnOk result (done.new.items ≡ done_in done.old.items (tree_of term)) }
{
    match term {
        Term::Make {
            mut fields,
            methods,
            mark,
        } => {
            empty_fields(alloc, done, &mut fields)?;
            Ok(Term::Make {
                fields,
                methods,
                mark,
            })
        }
        Term::Call(mut receiver, label, mut arguments, mark) => {
            let on = empty(alloc, done, true, &mut receiver)?;
            empty_all(alloc, done, on, &mut arguments)?;
            Ok(Term::Call(receiver, label, arguments, mark))
        }
        Term::Group(mut members, mark) => {
            empty_all(alloc, done, true, &mut members)?;
            Ok(Term::Group(members, mark))
        }
        Term::Steps(mut steps, mark) => {
            empty_step(alloc, done, &mut steps)?;
            Ok(Term::Steps(steps, mark))
        }
        Term::Get(mut a, label, mark) => {
            empty_first(alloc, done, &mut a)?;
            Ok(Term::Get(a, label, mark))
        }
        Term::Clone(mut a, mark) => {
            empty_first(alloc, done, &mut a)?;
            Ok(Term::Clone(a, mark))
        }
        Term::Active(mut a, label, mark) => {
            empty_first(alloc, done, &mut a)?;
            Ok(Term::Active(a, label, mark))
        }
        Term::Let(name, mut a, body, mark) => {
            empty_first(alloc, done, &mut a)?;
            Ok(Term::Let(name, a, body, mark))
        }
        Term::If(mut a, second, third, mark) => {
            empty_first(alloc, done, &mut a)?;
            Ok(Term::If(a, second, third, mark))
        }
        Term::Print(mut a, mark) => {
            empty_first(alloc, done, &mut a)?;
            Ok(Term::Print(a, mark))
        }
        Term::Size(mut a, mark) => {
            empty_first(alloc, done, &mut a)?;
            Ok(Term::Size(a, mark))
        }
        Term::WaitAll(mut a, mark) => {
            empty_first(alloc, done, &mut a)?;
            Ok(Term::WaitAll(a, mark))
        }
        Term::Put(mut a, label, mut b, mark) => {
            empty_both(alloc, done, &mut a, &mut b)?;
            Ok(Term::Put(a, label, b, mark))
        }
        Term::Operate(sign, mut a, mut b, mark) => {
            empty_both(alloc, done, &mut a, &mut b)?;
            Ok(Term::Operate(sign, a, b, mark))
        }
        Term::Scatter(mut a, label, mut b, mark) => {
            empty_both(alloc, done, &mut a, &mut b)?;
            Ok(Term::Scatter(a, label, b, mark))
        }
        Term::Member(mut a, mut b, mark) => {
            empty_both(alloc, done, &mut a, &mut b)?;
            Ok(Term::Member(a, b, mark))
        }
        Term::Loc(place, mark) => Ok(Term::Loc(place, mark)),
        Term::Hole(mark) => Ok(Term::Hole(mark)),
        Term::Var(name, mark) => Ok(Term::Var(name, mark)),
        Term::Number(number, mark) => Ok(Term::Number(number, mark)),
        Term::Serve(labels, mark) => Ok(Term::Serve(labels, mark)),
        Term::Repeat(body, mark) => Ok(Term::Repeat(body, mark)),
        Term::Echo(text, mark) => Ok(Term::Echo(text, mark)),
        Term::Pending(labels, mark) => Ok(Term::Pending(labels, mark)),
    }
}

fn empty_first(alloc: Global, done: &mut Vec<Place>, term: &mut Term) -> Result<(), AllocError>
    ensures emptied { OnOk result (tree_of term.new ≡ emptied true (tree_of term.old)) }
    ensures done { OnOk result (done.new.items ≡ done_at true done.old.items (tree_of term.old)) }
{
    empty(alloc, done, true, term)?;
    Ok(())
}

fn empty_both(
    alloc: Global,
    done: &mut Vec<Place>,
    first: &mut Term,
    second: &mut Term,
) -> Result<(), AllocError>
    ensures first { OnOk result (tree_of first.new ≡ emptied true (tree_of first.old)) }
    ensures second { let on = goes_on true (tree_of first.old) in
        OnOk result (tree_of second.new ≡ emptied on (tree_of second.old)) }
    ensures done { let on = goes_on true (tree_of first.old) in
        let ps = done_at true done.old.items (tree_of first.old) in
        OnOk result (done.new.items ≡ done_at on ps (tree_of second.old)) }
{
    let on = empty(alloc, done, true, first)?;
    empty(alloc, done, on, second)?;
    Ok(())
}

// Answers whether this one is done too.
#[tactic(auto, using(crate::proofs::EmptiedLemmas::emptied_laws, crate::proofs::EmptiedLemmas::done_laws, code_table::proofs::TermTrees::trees_are))]
fn empty(
    alloc: Global,
    done: &mut Vec<Place>,
    on: bool,
    term: &mut Term,
) -> Result<bool, AllocError>
    ensures emptied { OnOk result (tree_of term.new ≡ emptied on (tree_of term.old)) }
    ensures done { OnOk result (done.new.items ≡ done_at on done.old.items (tree_of term.old)) }
    ensures on { IfOk result (λ b. b ≡ goes_on on (tree_of term.old)) }
{
    if !on {
        return Ok(false);
    }
    match term {
        Term::Loc(place, _) => {
            done.push(short(*place)?)?;
            *term = nothing(alloc);
            Ok(true)
        }
        Term::Hole(_) => {
            *term = nothing(alloc);
            Ok(false)
        }
        _ => Ok(false),
    }
}

// The object `[]`.
#[tactic(auto, using(crate::proofs::EmptiedLemmas::emptied_laws, crate::proofs::EmptiedLemmas::done_laws, code_table::proofs::TermTrees::trees_are))]
fn nothing(alloc: Global) -> Term
    ensures filler { tree_of result ≡ filler }
{
    Term::Make {
        fields: Vec::new(alloc),
        methods: Vec::new(alloc),
        mark: Mark::blank(alloc),
    }
}

fn empty_all(
    alloc: Global,
    done: &mut Vec<Place>,
    on: bool,
    terms: &mut [Term],
) -> Result<(), AllocError>
    ensures emptied { OnOk result (map tree_of terms.new ≡ emptied_all on (map tree_of terms.old)) }
    ensures done { let ts = map tree_of terms.old in
        OnOk result (done.new.items ≡ done_all on done.old.items ts) }
{
    let mut open = on;
    for term in terms.iter_mut() {
        open = empty(alloc, done, open, term)?;
    }
    Ok(())
}

fn empty_fields(
    alloc: Global,
    done: &mut Vec<Place>,
    fields: &mut [(Label, Term)],
) -> Result<(), AllocError>
    ensures emptied { let ts = map field_tree fields.old in
        OnOk result (map field_tree fields.new ≡ emptied_all true ts) }
    ensures labels { OnOk result (map field_label fields.new ≡ map field_label fields.old) }
    ensures done { let ts = map field_tree fields.old in
        OnOk result (done.new.items ≡ done_all true done.old.items ts) }
{
    let mut open = true;
    for field in fields.iter_mut() {
        open = empty_field(alloc, done, open, field)?;
    }
    Ok(())
}

fn empty_field(
    alloc: Global,
    done: &mut Vec<Place>,
    on: bool,
    field: &mut (Label, Term),
) -> Result<bool, AllocError>
    ensures emptied { OnOk result (field_tree field.new ≡ emptied on (field_tree field.old)) }
    ensures label { OnOk result (field_label field.new ≡ field_label field.old) }
    ensures done { OnOk result (done.new.items ≡ done_at on done.old.items (field_tree field.old)) }
    ensures on { IfOk result (λ b. b ≡ goes_on on (field_tree field.old)) }
{
    empty(alloc, done, on, &mut field.1)
}

// Of a sequence only the first step is reduced in place.
fn empty_step(alloc: Global, done: &mut Vec<Place>, steps: &mut [Term]) -> Result<(), AllocError>
    ensures emptied { let ts = map tree_of steps.old in
        OnOk result (map tree_of steps.new ≡ emptied_step ts) }
    ensures done { let ts = map tree_of steps.old in
        OnOk result (done.new.items ≡ done_step done.old.items ts) }
{
    if let Some(first) = steps.first_mut() {
        empty(alloc, done, true, first)?;
    }
    Ok(())
}

/// The place that a term is.
#[tactic(auto, using(crate::proofs::EmptiedLemmas::emptied_laws, crate::proofs::EmptiedLemmas::done_laws, code_table::proofs::TermTrees::trees_are))]
pub fn place_of(term: &Term) -> Option<asp_model::Place>
    ensures place { result ≡ place_in (tree_of term.now) }
{
    match term {
        Term::Loc(place, _) => Some(*place),
        _ => None,
    }
}

//! Terms, node by node.
#![tactic(auto, using(code_table::proofs::TermTrees::trees_are))]

ghost use Rattle.std.specs.Prelude.{◌≡◌, ◌<◌, map};
ghost use Rattle.asp_model.specs.Shapes.{sign_shape, tree_of};
ghost use Rattle.checkpoint_text.specs.Reading.{
  both,
  kinds,
  list_of,
  method_with,
  reader_at,
  sign as sign_in,
  term as term_in,
  text as text_in,
};
ghost use Rattle.checkpoint_items.specs.Answers.{Finds};
ghost use Rattle.checkpoint_reading.specs.Terms.{
  field_pair,
  level,
  method_pair,
  three_shape,
  two_shape,
};

use asp_model::{Label, MOST_PROGRAM_BYTES, MOST_READ_NESTED, Mark, Method, Sign, Term};
use checkpoint_items::{
    Items, ReadError, read_count, read_label, read_labels, read_place, read_service, read_signed,
    read_text, read_words,
};
use std::alloc::Global;

// How many kinds of nodes there are.
const KINDS: u64 = 24;

/// A term. One of more than `MOST_READ_NESTED` levels has no memory.
pub fn read_term(alloc: Global, items: &mut Items<'_>) -> Result<Term, ReadError>
    ensures read { Finds tree_of (term_in items.old) items.new result }
{
    read_level(alloc, items, MOST_READ_NESTED)
}

// A term of so many levels at most.
#[cycle(read)]
fn read_level(alloc: Global, items: &mut Items<'_>, depth: u64) -> Result<Term, ReadError>
    ensures read { Finds tree_of (level depth items.old) items.new result }
{
    if depth == 0 {
        return Err(ReadError::Memory);
    }
    let kind = read_count(items)?;
    if kind >= KINDS {
        return Err(ReadError::Malformed);
    }
    read_node(alloc, items, kind, depth - 1)
}

// The fields of a node of this kind, over terms of so many levels at most.
#[cycle(read)]
fn read_node(alloc: Global, items: &mut Items<'_>, kind: u64, depth: u64) -> Result<Term, ReadError>
    requires { kind < 24 }
    ensures read { Finds tree_of (reader_at (kinds (level depth)) kind items.old) items.new result }
{
    match kind {
        0 => read_loc(alloc, items),
        1 => Ok(Term::Hole(Mark::blank(alloc))),
        2 => read_var(alloc, items),
        3 => read_constant(alloc, items),
        4 => read_make(alloc, items, depth),
        5 => read_get(alloc, items, depth),
        6 => read_put(alloc, items, depth),
        7 => read_call(alloc, items, depth),
        8 => read_clone(alloc, items, depth),
        9 => read_active(alloc, items, depth),
        10 => read_serve(alloc, items),
        11 => read_let(alloc, items, depth),
        12 => read_steps(alloc, items, depth),
        13 => read_if(alloc, items, depth),
        14 => read_repeat(alloc, items, depth),
        15 => read_operate(alloc, items, depth),
        16 => read_print(alloc, items, depth),
        17 => read_echo(alloc, items),
        18 => read_group(alloc, items, depth),
        19 => read_scatter(alloc, items, depth),
        20 => read_size(alloc, items, depth),
        21 => read_member(alloc, items, depth),
        22 => read_waitall(alloc, items, depth),
        23 => read_pending(alloc, items),
        _ => unreachable!(),
    }
}

fn read_loc(alloc: Global, items: &mut Items<'_>) -> Result<Term, ReadError>
    ensures read { Finds tree_of (reader_at (kinds (level 0)) 0 items.old) items.new result }
{
    let place = read_place(items)?;
    Ok(Term::Loc(place, Mark::blank(alloc)))
}

fn read_var(alloc: Global, items: &mut Items<'_>) -> Result<Term, ReadError>
    ensures read { Finds tree_of (reader_at (kinds (level 0)) 2 items.old) items.new result }
{
    let name = read_text(alloc, items)?;
    Ok(Term::Var(name, Mark::blank(alloc)))
}

fn read_constant(alloc: Global, items: &mut Items<'_>) -> Result<Term, ReadError>
    ensures read { Finds tree_of (reader_at (kinds (level 0)) 3 items.old) items.new result }
{
    let number = read_signed(items)?;
    Ok(Term::Number(number, Mark::blank(alloc)))
}

fn read_serve(alloc: Global, items: &mut Items<'_>) -> Result<Term, ReadError>
    ensures read { Finds tree_of (reader_at (kinds (level 0)) 10 items.old) items.new result }
{
    let labels = read_labels(alloc, items)?;
    Ok(Term::Serve(labels, Mark::blank(alloc)))
}

fn read_echo(alloc: Global, items: &mut Items<'_>) -> Result<Term, ReadError>
    ensures read { Finds tree_of (reader_at (kinds (level 0)) 17 items.old) items.new result }
{
    let echoed = read_text(alloc, items)?;
    Ok(Term::Echo(echoed, Mark::blank(alloc)))
}

fn read_pending(alloc: Global, items: &mut Items<'_>) -> Result<Term, ReadError>
    ensures read { Finds tree_of (reader_at (kinds (level 0)) 23 items.old) items.new result }
{
    let labels = read_labels(alloc, items)?;
    Ok(Term::Pending(labels, Mark::blank(alloc)))
}

#[cycle(read)]
fn read_clone(alloc: Global, items: &mut Items<'_>, depth: u64) -> Result<Term, ReadError>
    ensures read { Finds tree_of (reader_at (kinds (level depth)) 8 items.old) items.new result }
{
    let object = read_boxed(alloc, items, depth)?;
    Ok(Term::Clone(object, Mark::blank(alloc)))
}

#[cycle(read)]
fn read_repeat(alloc: Global, items: &mut Items<'_>, depth: u64) -> Result<Term, ReadError>
    ensures read { Finds tree_of (reader_at (kinds (level depth)) 14 items.old) items.new result }
{
    let body = read_boxed(alloc, items, depth)?;
    Ok(Term::Repeat(body, Mark::blank(alloc)))
}

#[cycle(read)]
fn read_print(alloc: Global, items: &mut Items<'_>, depth: u64) -> Result<Term, ReadError>
    ensures read { Finds tree_of (reader_at (kinds (level depth)) 16 items.old) items.new result }
{
    let printed = read_boxed(alloc, items, depth)?;
    Ok(Term::Print(printed, Mark::blank(alloc)))
}

#[cycle(read)]
fn read_size(alloc: Global, items: &mut Items<'_>, depth: u64) -> Result<Term, ReadError>
    ensures read { Finds tree_of (reader_at (kinds (level depth)) 20 items.old) items.new result }
{
    let group = read_boxed(alloc, items, depth)?;
    Ok(Term::Size(group, Mark::blank(alloc)))
}

#[cycle(read)]
fn read_waitall(alloc: Global, items: &mut Items<'_>, depth: u64) -> Result<Term, ReadError>
    ensures read { Finds tree_of (reader_at (kinds (level depth)) 22 items.old) items.new result }
{
    let group = read_boxed(alloc, items, depth)?;
    Ok(Term::WaitAll(group, Mark::blank(alloc)))
}

#[cycle(read)]
fn read_get(alloc: Global, items: &mut Items<'_>, depth: u64) -> Result<Term, ReadError>
    ensures read { Finds tree_of (reader_at (kinds (level depth)) 5 items.old) items.new result }
{
    let object = read_boxed(alloc, items, depth)?;
    let label = read_label(alloc, items)?;
    Ok(Term::Get(object, label, Mark::blank(alloc)))
}

#[cycle(read)]
fn read_active(alloc: Global, items: &mut Items<'_>, depth: u64) -> Result<Term, ReadError>
    ensures read { Finds tree_of (reader_at (kinds (level depth)) 9 items.old) items.new result }
{
    let object = read_boxed(alloc, items, depth)?;
    let service = read_service(alloc, items)?;
    Ok(Term::Active(object, service, Mark::blank(alloc)))
}

#[cycle(read)]
fn read_put(alloc: Global, items: &mut Items<'_>, depth: u64) -> Result<Term, ReadError>
    ensures read { Finds tree_of (reader_at (kinds (level depth)) 6 items.old) items.new result }
{
    let named = read_named(alloc, items, depth)?;
    Ok(Term::Put(named.0, named.1, named.2, Mark::blank(alloc)))
}

#[cycle(read)]
fn read_scatter(alloc: Global, items: &mut Items<'_>, depth: u64) -> Result<Term, ReadError>
    ensures read { Finds tree_of (reader_at (kinds (level depth)) 19 items.old) items.new result }
{
    let named = read_named(alloc, items, depth)?;
    Ok(Term::Scatter(named.0, named.1, named.2, Mark::blank(alloc)))
}

#[cycle(read)]
fn read_let(alloc: Global, items: &mut Items<'_>, depth: u64) -> Result<Term, ReadError>
    ensures read { Finds tree_of (reader_at (kinds (level depth)) 11 items.old) items.new result }
{
    let name = read_text(alloc, items)?;
    let two = read_two(alloc, items, depth)?;
    Ok(Term::Let(name, two.0, two.1, Mark::blank(alloc)))
}

#[cycle(read)]
fn read_member(alloc: Global, items: &mut Items<'_>, depth: u64) -> Result<Term, ReadError>
    ensures read { Finds tree_of (reader_at (kinds (level depth)) 21 items.old) items.new result }
{
    let two = read_two(alloc, items, depth)?;
    Ok(Term::Member(two.0, two.1, Mark::blank(alloc)))
}

#[cycle(read)]
fn read_operate(alloc: Global, items: &mut Items<'_>, depth: u64) -> Result<Term, ReadError>
    ensures read { Finds tree_of (reader_at (kinds (level depth)) 15 items.old) items.new result }
{
    let sign = read_sign(items)?;
    let two = read_two(alloc, items, depth)?;
    Ok(Term::Operate(sign, two.0, two.1, Mark::blank(alloc)))
}

#[cycle(read)]
fn read_if(alloc: Global, items: &mut Items<'_>, depth: u64) -> Result<Term, ReadError>
    ensures read { Finds tree_of (reader_at (kinds (level depth)) 13 items.old) items.new result }
{
    let test = read_boxed(alloc, items, depth)?;
    let two = read_two(alloc, items, depth)?;
    Ok(Term::If(test, two.0, two.1, Mark::blank(alloc)))
}

#[cycle(read)]
fn read_steps(alloc: Global, items: &mut Items<'_>, depth: u64) -> Result<Term, ReadError>
    ensures read { Finds tree_of (reader_at (kinds (level depth)) 12 items.old) items.new result }
{
    let steps = read_terms(alloc, items, depth)?;
    Ok(Term::Steps(steps, Mark::blank(alloc)))
}

#[cycle(read)]
fn read_group(alloc: Global, items: &mut Items<'_>, depth: u64) -> Result<Term, ReadError>
    ensures read { Finds tree_of (reader_at (kinds (level depth)) 18 items.old) items.new result }
{
    let members = read_terms(alloc, items, depth)?;
    Ok(Term::Group(members, Mark::blank(alloc)))
}

#[cycle(read)]
fn read_call(alloc: Global, items: &mut Items<'_>, depth: u64) -> Result<Term, ReadError>
    ensures read { Finds tree_of (reader_at (kinds (level depth)) 7 items.old) items.new result }
{
    let receiver = read_boxed(alloc, items, depth)?;
    let label = read_label(alloc, items)?;
    let arguments = read_terms(alloc, items, depth)?;
    Ok(Term::Call(receiver, label, arguments, Mark::blank(alloc)))
}

#[cycle(read)]
fn read_make(alloc: Global, items: &mut Items<'_>, depth: u64) -> Result<Term, ReadError>
    ensures read { Finds tree_of (reader_at (kinds (level depth)) 4 items.old) items.new result }
{
    let fields = read_fields(alloc, items, depth)?;
    let methods = read_methods(alloc, items, depth)?;
    Ok(Term::Make {
        fields,
        methods,
        mark: Mark::blank(alloc),
    })
}

fn read_sign(items: &mut Items<'_>) -> Result<Sign, ReadError>
    ensures read { Finds sign_shape (sign_in items.old) items.new result }
{
    match read_count(items)? {
        0 => Ok(Sign::Add),
        1 => Ok(Sign::Subtract),
        2 => Ok(Sign::Multiply),
        3 => Ok(Sign::Divide),
        4 => Ok(Sign::Remainder),
        5 => Ok(Sign::Less),
        6 => Ok(Sign::Equal),
        _ => Err(ReadError::Malformed),
    }
}

#[cycle(read)]
fn read_boxed(alloc: Global, items: &mut Items<'_>, depth: u64) -> Result<Box<Term>, ReadError>
    ensures read { Finds (λ b. tree_of b.value) (level depth items.old) items.new result }
{
    let term = read_level(alloc, items, depth)?;
    Ok(Box::new(alloc, term)?)
}

#[cycle(read)]
fn read_two(
    alloc: Global,
    items: &mut Items<'_>,
    depth: u64,
) -> Result<(Box<Term>, Box<Term>), ReadError>
    ensures read { Finds two_shape (both (level depth) (level depth) items.old) items.new result }
{
    let first = read_boxed(alloc, items, depth)?;
    let second = read_boxed(alloc, items, depth)?;
    Ok((first, second))
}

// Two terms with a label between them.
#[cycle(read)]
fn read_named(
    alloc: Global,
    items: &mut Items<'_>,
    depth: u64,
) -> Result<(Box<Term>, Label, Box<Term>), ReadError>
    ensures read { let reader = both (level depth) (both text_in (level depth)) in
        Finds three_shape (reader items.old) items.new result }
{
    let first = read_boxed(alloc, items, depth)?;
    let label = read_label(alloc, items)?;
    let second = read_boxed(alloc, items, depth)?;
    Ok((first, label, second))
}

// No program has a list longer than its text, so no run has.
#[cycle(read)]
fn read_terms(alloc: Global, items: &mut Items<'_>, depth: u64) -> Result<Vec<Term>, ReadError>
    ensures read { let reader = list_of (level depth) in
        Finds (λ v. map tree_of v.items) (reader items.old) items.new result }
{
    let count = read_count(items)?;
    if count > MOST_PROGRAM_BYTES as u64 {
        return Err(ReadError::Memory);
    }
    let mut terms = Vec::new(alloc);
    for _ in 0..count {
        terms.push(read_level(alloc, items, depth)?)?;
    }
    Ok(terms)
}

#[cycle(read)]
fn read_fields(
    alloc: Global,
    items: &mut Items<'_>,
    depth: u64,
) -> Result<Vec<(Label, Term)>, ReadError>
    ensures read { let reader = list_of (both text_in (level depth)) in
        Finds (λ v. map field_pair v.items) (reader items.old) items.new result }
{
    let count = read_count(items)?;
    let mut fields = Vec::new(alloc);
    for _ in 0..count {
        fields.push(read_field(alloc, items, depth)?)?;
    }
    Ok(fields)
}

#[cycle(read)]
fn read_field(alloc: Global, items: &mut Items<'_>, depth: u64) -> Result<(Label, Term), ReadError>
    ensures read { Finds field_pair (both text_in (level depth) items.old) items.new result }
{
    let label = read_label(alloc, items)?;
    let term = read_level(alloc, items, depth)?;
    Ok((label, term))
}

#[cycle(read)]
fn read_methods(alloc: Global, items: &mut Items<'_>, depth: u64) -> Result<Vec<Method>, ReadError>
    ensures read { let reader = list_of (method_with (level depth)) in
        Finds (λ v. map method_pair v.items) (reader items.old) items.new result }
{
    let count = read_count(items)?;
    let mut methods = Vec::new(alloc);
    for _ in 0..count {
        methods.push(read_method(alloc, items, depth)?)?;
    }
    Ok(methods)
}

#[cycle(read)]
fn read_method(alloc: Global, items: &mut Items<'_>, depth: u64) -> Result<Method, ReadError>
    ensures read { Finds method_pair (method_with (level depth) items.old) items.new result }
{
    let label = read_label(alloc, items)?;
    let slf = read_text(alloc, items)?;
    let parameters = read_words(alloc, items)?;
    let body = read_level(alloc, items, depth)?;
    Ok(Method {
        label,
        slf,
        parameters,
        body,
    })
}

//! The terms that tokens make, with their marks.

ghost use Rattle.std.specs.Prelude.{◌≡◌, ◌+◌, ◌<◌, ◌^◌, ◌∷◌, ◌++◌, [], map, IfOk, OnOk, None, Some};
ghost use Rattle.asp_model.specs.Shapes.{marked_of, mark_shape, sign_shape};
ghost use Rattle.syntax_grammar.specs.Nodes.{part, named_mark as new_named_mark, number_at, variable_at, echo_at, word_at, active_at, if_at, let_at, scatter_at, member_at, operated as operated_part, got as got_part, called as called_part, put as put_part, once_more as one_more, in_parentheses, made as made_part, served as served_part};
ghost use Rattle.syntax_grammar.specs.Depth.{parentheses_of};
ghost use Rattle.syntax_terms.specs.Shapes.{part_shape, access_shape, object_shape, labels_shape, wrap_shape, field_part, listing_part};
ghost use Rattle.syntax_terms.specs.Answers.{IsAccess};

use crate::open::{
    Access, Binding, Choice, Field, Labels, Listing, Object, Part, Scatter, Service, Target, Wrap,
};
use crate::steps::mark_at;
use crate::stop::stopped;
use asp_model::{Mark, Sign, Term, Word};
use std::alloc::{AllocError, Global};

fn named_mark(alloc: Global, at: usize, name_at: usize) -> Result<Mark, AllocError>
    ensures { IfOk result (λ m. mark_shape m ≡ new_named_mark at (name_at ∷ [])) }
{
    let mut names = Vec::new(alloc);
    names.push(name_at)?;
    Ok(Mark {
        at,
        parentheses: 0,
        left: 0,
        names,
    })
}

fn boxed(alloc: Global, term: Term) -> Result<Box<Term>, AllocError>
    ensures { IfOk result (λ b. b.value ≡ term) }
{
    Ok(Box::new(alloc, term)?)
}

// A term, and the place of its first token.
fn part_of(alloc: Global, start: usize, term: Term) -> Result<Part, AllocError>
    ensures { IfOk result (λ p. part_shape p ≡ part start (marked_of term)) }
{
    let term = boxed(alloc, term)?;
    Ok(Part { start, term })
}

/// A number whose token stands at a place.
pub fn number(alloc: Global, at: usize, n: i64) -> Result<Part, AllocError>
    ensures number { IfOk result (λ p. part_shape p ≡ part at (number_at at n)) }
{
    part_of(alloc, at, Term::Number(n, mark_at(alloc, at)))
}

/// A name that stands as a term.
pub fn variable(alloc: Global, at: usize, name: Word) -> Result<Part, AllocError>
    ensures variable { IfOk result (λ p. part_shape p ≡ part at (variable_at at name)) }
{
    part_of(alloc, at, Term::Var(name, mark_at(alloc, at)))
}

/// An `echo` of a text.
pub fn echo(alloc: Global, at: usize, text: Word) -> Result<Part, AllocError>
    ensures echo { IfOk result (λ p. part_shape p ≡ part at (echo_at at text)) }
{
    part_of(alloc, at, Term::Echo(text, mark_at(alloc, at)))
}

/// A term behind a word.
pub fn wrapped(alloc: Global, wrap: Wrap, at: usize, term: Box<Term>) -> Result<Part, AllocError>
    ensures wrapped { let whole = word_at (wrap_shape wrap) at (marked_of term.value) in
        IfOk result (λ p. part_shape p ≡ part at whole) }
{
    let mark = mark_at(alloc, at);
    match wrap {
        Wrap::Clone => part_of(alloc, at, Term::Clone(term, mark)),
        Wrap::Repeat => part_of(alloc, at, Term::Repeat(term, mark)),
        Wrap::Print => part_of(alloc, at, Term::Print(term, mark)),
        Wrap::Size => part_of(alloc, at, Term::Size(term, mark)),
        Wrap::WaitAll => part_of(alloc, at, Term::WaitAll(term, mark)),
    }
}

/// An `active` that names no service.
pub fn active(alloc: Global, at: usize, object: Box<Term>) -> Result<Part, AllocError>
    ensures active { let whole = active_at at [] None (marked_of object.value) in
        IfOk result (λ p. part_shape p ≡ part at whole) }
{
    part_of(alloc, at, Term::Active(object, None, mark_at(alloc, at)))
}

/// An `active` that begins with a service.
pub fn active_with(alloc: Global, service: Service) -> Result<Part, AllocError>
    ensures active { let object = marked_of service.object.value in
        let whole = active_at service.at (service.label_at ∷ []) (Some service.label.text) object in
        IfOk result (λ p. part_shape p ≡ part service.at whole) }
{
    match named_mark(alloc, service.at, service.label_at) {
        Ok(mark) => {
            let at = service.at;
            let term = Term::Active(service.object, Some(service.label), mark);
            part_of(alloc, at, term)
        }
        Err(error) => stopped(service, error),
    }
}

/// A `serve` or a `pending` with the labels that were read.
pub fn served(alloc: Global, labels: Labels) -> Result<Part, AllocError>
    ensures served { IfOk result (λ p. part_shape p ≡ served_part (labels_shape labels)) }
{
    let Labels {
        at,
        polls,
        names,
        labels,
    } = labels;
    let mark = Mark {
        at,
        parentheses: 0,
        left: 0,
        names,
    };
    if polls {
        part_of(alloc, at, Term::Pending(labels, mark))
    } else {
        part_of(alloc, at, Term::Serve(labels, mark))
    }
}

/// An `if` at its place.
pub fn choice(alloc: Global, choice: Choice, other: Box<Term>) -> Result<Part, AllocError>
    ensures choice { let condition = marked_of choice.condition.value in
        let chosen = marked_of choice.chosen.value in
        let whole = if_at choice.at condition chosen (marked_of other.value) in
        IfOk result (λ p. part_shape p ≡ part choice.at whole) }
{
    let Choice {
        at,
        condition,
        chosen,
    } = choice;
    let mark = mark_at(alloc, at);
    part_of(alloc, at, Term::If(condition, chosen, other, mark))
}

/// A `let` at its place.
pub fn binding(alloc: Global, binding: Binding, body: Box<Term>) -> Result<Part, AllocError>
    ensures binding { let bound = marked_of binding.bound.value in
        let whole = let_at binding.at binding.name_at binding.name bound (marked_of body.value) in
        IfOk result (λ p. part_shape p ≡ part binding.at whole) }
{
    match named_mark(alloc, binding.at, binding.name_at) {
        Ok(mark) => {
            let at = binding.at;
            let term = Term::Let(binding.name, binding.bound, body, mark);
            part_of(alloc, at, term)
        }
        Err(error) => stopped((binding, body), error),
    }
}

/// Two terms with a sign between them.
pub fn operated(alloc: Global, sign: Sign, left: Part, right: Part) -> Result<Part, AllocError>
    ensures operated { IfOk result (λ p. part_shape p
        ≡ operated_part (sign_shape sign) (part_shape left) (part_shape right)) }
{
    let start = left.start;
    let mark = mark_at(alloc, start);
    part_of(
        alloc,
        start,
        Term::Operate(sign, left.term, right.term, mark),
    )
}

/// A field access.
pub fn got(alloc: Global, field: Field) -> Result<Part, AllocError>
    ensures got { IfOk result (λ p. part_shape p ≡ field_part field) }
{
    let start = field.receiver.start;
    match named_mark(alloc, start, field.at) {
        Ok(mark) => {
            let term = Term::Get(field.receiver.term, field.label, mark);
            part_of(alloc, start, term)
        }
        Err(error) => stopped(field, error),
    }
}

/// A call with its arguments, or a group with its members.
pub fn listed(alloc: Global, listing: Listing) -> Result<Part, AllocError>
    ensures listed { IfOk result (λ p. part_shape p ≡ listing_part listing) }
{
    let Listing { target, terms } = listing;
    match target {
        Target::Call(method) => called(alloc, method, terms),
        Target::Group(at) => part_of(alloc, at, Term::Group(terms, mark_at(alloc, at))),
    }
}

fn called(alloc: Global, method: Field, arguments: Vec<Term>) -> Result<Part, AllocError>
    ensures { let terms = map marked_of arguments.items in
        let whole = called_part (part_shape method.receiver) method.at method.label.text terms in
        IfOk result (λ p. part_shape p ≡ whole) }
{
    let start = method.receiver.start;
    match named_mark(alloc, start, method.at) {
        Ok(mark) => {
            let term = Term::Call(method.receiver.term, method.label, arguments, mark);
            part_of(alloc, start, term)
        }
        Err(error) => stopped((method, arguments), error),
    }
}

/// A `scatter` of two groups.
pub fn scatter(alloc: Global, scatter: Scatter, second: Box<Term>) -> Result<Part, AllocError>
    ensures scatter { let group = marked_of scatter.group.value in
        let second = marked_of second.value in
        let whole = scatter_at scatter.at scatter.label_at scatter.label.text group second in
        IfOk result (λ p. part_shape p ≡ part scatter.at whole) }
{
    match named_mark(alloc, scatter.at, scatter.label_at) {
        Ok(mark) => {
            let at = scatter.at;
            let term = Term::Scatter(scatter.group, scatter.label, second, mark);
            part_of(alloc, at, term)
        }
        Err(error) => stopped((scatter, second), error),
    }
}

/// A `member` of a group.
pub fn member(
    alloc: Global,
    at: usize,
    group: Box<Term>,
    index: Box<Term>,
) -> Result<Part, AllocError>
    ensures member { let whole = member_at at (marked_of group.value) (marked_of index.value) in
        IfOk result (λ p. part_shape p ≡ part at whole) }
{
    part_of(alloc, at, Term::Member(group, index, mark_at(alloc, at)))
}

/// A term taken apart, if it is a field access.
#[tactic(auto, using(crate::proofs::Making::get_other))]
pub fn access_of(part: Part) -> Option<Access>
    ensures { IsAccess result (part_shape part) }
{
    let Part { start, term } = part;
    match Box::into_inner(term) {
        Term::Get(receiver, label, mark) => Some(Access {
            start,
            receiver,
            label,
            mark,
        }),
        other => {
            drop(other);
            None
        }
    }
}

/// A new value for the field of an access.
pub fn put(alloc: Global, access: Access, value: Part) -> Result<Part, AllocError>
    ensures put { let whole = put_part (access_shape access) (part_shape value) in
        IfOk result (λ p. part_shape p ≡ whole) }
{
    let Access {
        start,
        receiver,
        label,
        mark,
    } = access;
    let mark = Mark {
        at: start,
        parentheses: 0,
        left: mark.parentheses,
        names: mark.names,
    };
    part_of(alloc, start, Term::Put(receiver, label, value.term, mark))
}

/// Puts one more term behind others.
pub fn with_term(terms: &mut Vec<Term>, term: Box<Term>) -> Result<(), AllocError>
    ensures { let grown = map marked_of terms.old.items ++ marked_of term.value ∷ [] in
        OnOk result (map marked_of terms.new.items ≡ grown) }
{
    terms.push(Box::into_inner(term))?;
    Ok(())
}

/// An object with what was read of it.
pub fn made(alloc: Global, object: Object) -> Result<Part, AllocError>
    ensures made { IfOk result (λ p. part_shape p ≡ made_part (object_shape object)) }
{
    let Object {
        at,
        names,
        fields,
        methods,
    } = object;
    let mark = Mark {
        at,
        parentheses: 0,
        left: 0,
        names,
    };
    let term = Term::Make {
        fields,
        methods,
        mark,
    };
    part_of(alloc, at, term)
}

fn once_more(mark: &mut Mark)
    requires { mark.now.parentheses + 1 < 2 ^ 32 }
    ensures { mark_shape mark.new ≡ one_more (mark_shape mark.old) }
{
    mark.parentheses += 1;
}

/// Puts one more pair of parentheses round a term.
pub fn enclose(term: &mut Term)
    requires few { parentheses_of (marked_of term.now) + 1 < 2 ^ 32 }
    ensures term { marked_of term.new ≡ in_parentheses (marked_of term.old) }
{
    match term {
        Term::Loc(_, mark) => once_more(mark),
        Term::Hole(mark) => once_more(mark),
        Term::Var(_, mark) => once_more(mark),
        Term::Number(_, mark) => once_more(mark),
        Term::Make { mark, .. } => once_more(mark),
        Term::Get(_, _, mark) => once_more(mark),
        Term::Put(_, _, _, mark) => once_more(mark),
        Term::Call(_, _, _, mark) => once_more(mark),
        Term::Clone(_, mark) => once_more(mark),
        Term::Active(_, _, mark) => once_more(mark),
        Term::Serve(_, mark) => once_more(mark),
        Term::Let(_, _, _, mark) => once_more(mark),
        Term::Steps(_, mark) => once_more(mark),
        Term::If(_, _, _, mark) => once_more(mark),
        Term::Repeat(_, mark) => once_more(mark),
        Term::Operate(_, _, _, mark) => once_more(mark),
        Term::Print(_, mark) => once_more(mark),
        Term::Echo(_, mark) => once_more(mark),
        Term::Group(_, mark) => once_more(mark),
        Term::Scatter(_, _, _, mark) => once_more(mark),
        Term::Size(_, mark) => once_more(mark),
        Term::Member(_, _, mark) => once_more(mark),
        Term::WaitAll(_, mark) => once_more(mark),
        Term::Pending(_, mark) => once_more(mark),
    }
}

//! What a bracket, a comma, `in`, `;` or the end makes of the sequence that an operand ends.

ghost use Rattle.std.specs.Prelude.{◌≡◌, ◌≤◌, IfOk, OnOk};
ghost use Rattle.asp_model.specs.declared.limits.TheConstants.{MOST_LEVEL};
ghost use Rattle.syntax_grammar.specs.Closings.{concluded, close as close_kind, close_brace as brace_kind, close_square as square_kind, comma as comma_kind, bound as bound_kind, ended as ended_state};
ghost use Rattle.syntax_grammar.specs.Machine.{next_term as next_state};
ghost use Rattle.syntax_grammar.specs.States.{term_in as term_of, with_next};
ghost use Rattle.syntax_grammar.specs.States as states;
ghost use Rattle.syntax_grammar.specs.Depth.{parentheses_of};
ghost use Rattle.asp_model.specs.Shapes.{marked_of};
ghost use Rattle.syntax_terms.specs.Shapes.{part_shape, kind_shape, open_shape, object_shape, stack};
ghost use Rattle.syntax_states.specs.Shapes.{state_shape};
ghost use Rattle.syntax_states.specs.Answers.{Leaves, Backs, Agains, Closes, Ends, finish_in, finished_in, closing_shape};

use crate::change::plain;
use crate::state::{Mode, Opener, State, again, back, enter};
use asp_model::{Label, Term};
use std::alloc::{AllocError, Global};
use std::mem;
use syntax_terms::{
    Binding, Choice, Kind, Listing, Object, Open, Part, Scatter, Stop, active, binding, choice,
    enclose, first_start, listed, made, member, refused, scatter, stopped, term_in, value_of,
    with_field, with_method, with_term, wrapped,
};

/// A sequence that is over, and what it stands in.
#[derive(Drop)]
pub struct Finished {
    pub kind: Kind,
    pub value: Part,
}

/// What a sequence that is over leaves: a mode of the sequence around, or a new sequence in its place.
#[derive(Drop)]
pub enum Closing {
    Back(Mode),
    Again(Kind),
}

// The innermost sequence is over, and with it each `let` whose body it ends.
#[cycle(finish)]
fn finish(alloc: Global, state: &mut State, part: Part) -> Result<Finished, AllocError>
    ensures { let whole = finish_in (part_shape part) state.old in
        IfOk result (λ f. finished_in f (stack state.new.outer.items) ≡ whole) }
{
    let value = value_of(alloc, &mut state.inner, part)?;
    match mem::replace(&mut state.inner.kind, Kind::Top) {
        Kind::InBody(begun) => match state.outer.pop() {
            None => Ok(Finished {
                kind: Kind::InBody(begun),
                value,
            }),
            Some(around) => {
                drop(mem::replace(&mut state.inner, around));
                let whole = binding(alloc, begun, value.term)?;
                finish(alloc, state, whole)
            }
        },
        other => Ok(Finished { kind: other, value }),
    }
}

/// `)` behind an operand.
pub fn close(alloc: Global, state: &mut State, part: Part) -> Result<(), Stop>
    requires few { parentheses_of (part_shape part).term ≤ MOST_LEVEL }
    ensures { let over = finish_in (part_shape part) state.old in
        Leaves result state.new (concluded close_kind over) }
{
    let over = finish(alloc, state, part)?;
    back(state, closing_round(alloc, over)?)
}

/// `}` behind an operand.
pub fn close_brace(alloc: Global, state: &mut State, part: Part) -> Result<(), Stop>
    ensures { let over = finish_in (part_shape part) state.old in
        Leaves result state.new (concluded brace_kind over) }
{
    let over = finish(alloc, state, part)?;
    back(state, closing_brace(alloc, over)?)
}

/// `]` behind an operand.
pub fn close_square(alloc: Global, state: &mut State, part: Part) -> Result<(), Stop>
    ensures { let over = finish_in (part_shape part) state.old in
        Leaves result state.new (concluded square_kind over) }
{
    let over = finish(alloc, state, part)?;
    back(state, closing_square(alloc, over)?)
}

/// `,` behind an operand.
pub fn comma(alloc: Global, state: &mut State, part: Part) -> Result<(), Stop>
    ensures { let over = finish_in (part_shape part) state.old in
        Leaves result state.new (concluded comma_kind over) }
{
    let over = finish(alloc, state, part)?;
    match closing_comma(over)? {
        Closing::Back(mode) => back(state, mode),
        Closing::Again(kind) => {
            again(alloc, state, kind);
            Ok(())
        }
    }
}

/// `in` behind an operand.
pub fn bound(alloc: Global, state: &mut State, part: Part) -> Result<(), Stop>
    ensures { let over = finish_in (part_shape part) state.old in
        Leaves result state.new (concluded bound_kind over) }
{
    let over = finish(alloc, state, part)?;
    let kind = closing_in(over)?;
    again(alloc, state, kind);
    Ok(())
}

/// The end of the text behind an operand.
pub fn ended(alloc: Global, state: &mut State, part: Part) -> Result<Box<Term>, Stop>
    ensures { Ends result (ended_state (finish_in (part_shape part) state.old)) }
{
    let over = finish(alloc, state, part)?;
    whole(over, &state.outer)
}

#[tactic(auto, using(crate::proofs::Others::ended_other))]
fn whole(over: Finished, outer: &[Open]) -> Result<Box<Term>, Stop>
    ensures { Ends result (ended_state (finished_in over (stack outer.now))) }
{
    let Finished { kind, value } = over;
    match kind {
        Kind::Top => {
            if outer.is_empty() {
                Ok(value.term)
            } else {
                refused(value)
            }
        }
        other => refused((other, value)),
    }
}

#[tactic(auto, using(crate::proofs::Others::close_other))]
fn closing_round(alloc: Global, over: Finished) -> Result<Mode, Stop>
    requires few { parentheses_of (part_shape over.value).term ≤ MOST_LEVEL }
    ensures { Backs result (close_kind (kind_shape over.kind) (part_shape over.value)) }
{
    let Finished { kind, mut value } = over;
    match kind {
        Kind::InParentheses(at) => {
            enclose(&mut value.term);
            let term = value.term;
            Ok(plain(Part { start: at, term }))
        }
        Kind::InWord(wrap, at) => Ok(plain(wrapped(alloc, wrap, at, value.term)?)),
        Kind::InActive(at) => Ok(plain(active(alloc, at, value.term)?)),
        Kind::InCondition(at) => {
            let kind = Kind::InThen(at, value.term);
            Ok(Mode::Opening(Opener::ByBrace, kind))
        }
        Kind::InList(mut listing) => match with_term(&mut listing.terms, value.term) {
            Ok(()) => Ok(plain(listed(alloc, listing)?)),
            Err(_) => stopped(listing, Stop::Memory),
        },
        Kind::InArguments(begun) => Ok(plain(scatter(alloc, begun, value.term)?)),
        Kind::InIndex(at, group) => Ok(plain(member(alloc, at, group, value.term)?)),
        other => refused((other, value)),
    }
}

#[tactic(auto, using(crate::proofs::Others::brace_other))]
fn closing_brace(alloc: Global, over: Finished) -> Result<Mode, Stop>
    ensures { Backs result (brace_kind (kind_shape over.kind) (part_shape over.value)) }
{
    let Finished { kind, value } = over;
    match kind {
        Kind::InThen(at, condition) => {
            let chosen = value.term;
            Ok(Mode::ElseComing(Choice {
                at,
                condition,
                chosen,
            }))
        }
        Kind::InElse(begun) => Ok(plain(choice(alloc, begun, value.term)?)),
        other => refused((other, value)),
    }
}

#[tactic(auto, using(crate::proofs::Others::square_other))]
fn closing_square(alloc: Global, over: Finished) -> Result<Mode, Stop>
    ensures { Backs result (square_kind (kind_shape over.kind) (part_shape over.value)) }
{
    let Finished { kind, value } = over;
    match kind {
        Kind::InField(mut object, label) => match with_field(&mut object, label, value.term) {
            Ok(()) => Ok(plain(made(alloc, object)?)),
            Err(_) => stopped(object, Stop::Memory),
        },
        Kind::InMethod(mut object, head) => match with_method(&mut object, head, value.term) {
            Ok(()) => Ok(plain(made(alloc, object)?)),
            Err(_) => stopped(object, Stop::Memory),
        },
        other => refused((other, value)),
    }
}

#[tactic(auto, using(crate::proofs::Others::comma_other))]
fn closing_comma(over: Finished) -> Result<Closing, Stop>
    ensures { Closes result (comma_kind (kind_shape over.kind) (part_shape over.value)) }
{
    let Finished { kind, value } = over;
    match kind {
        Kind::InActive(at) => Ok(Closing::Back(Mode::ServiceNaming(at, value.term))),
        Kind::InScatter(at) => Ok(Closing::Back(Mode::ScatterNaming(at, value.term))),
        Kind::InMember(at) => Ok(Closing::Again(Kind::InIndex(at, value.term))),
        Kind::InList(mut listing) => match with_term(&mut listing.terms, value.term) {
            Ok(()) => Ok(Closing::Again(Kind::InList(listing))),
            Err(_) => stopped(listing, Stop::Memory),
        },
        Kind::InField(mut object, label) => match with_field(&mut object, label, value.term) {
            Ok(()) => Ok(Closing::Back(Mode::FieldNaming(object))),
            Err(_) => stopped(object, Stop::Memory),
        },
        Kind::InMethod(mut object, head) => match with_method(&mut object, head, value.term) {
            Ok(()) => Ok(Closing::Back(Mode::MethodNaming(object))),
            Err(_) => stopped(object, Stop::Memory),
        },
        other => refused((other, value)),
    }
}

#[tactic(auto, using(crate::proofs::Others::bound_other))]
fn closing_in(over: Finished) -> Result<Kind, Stop>
    ensures { Agains result (bound_kind (kind_shape over.kind) (part_shape over.value)) }
{
    let Finished { kind, value } = over;
    match kind {
        Kind::InBinding(at, name_at, name) => {
            let bound = value.term;
            Ok(Kind::InBody(Binding {
                at,
                name_at,
                name,
                bound,
            }))
        }
        other => refused((other, value)),
    }
}

/// `;` behind an operand: the next term of its sequence, or the methods behind the fields.
#[tactic(auto, using(crate::proofs::Refused::term_other))]
pub fn next_term(alloc: Global, state: &mut State, part: Part) -> Result<(), Stop>
    ensures { let inner = open_shape state.old.inner in
        let last = term_of inner (part_shape part) in
        let next = next_state inner.kind last inner (stack state.old.outer.items) in
        Leaves result state.new next }
{
    let last = term_in(alloc, &mut state.inner, part)?;
    match mem::replace(&mut state.inner.kind, Kind::Top) {
        Kind::InField(mut object, label) => match with_field(&mut object, label, last.term) {
            Ok(()) => back(state, Mode::MethodNaming(object)),
            Err(_) => stopped(object, Stop::Memory),
        },
        other => {
            drop(mem::replace(&mut state.inner.kind, other));
            Ok(one_more(state, last)?)
        }
    }
}

// The term is over, and the next one of its sequence begins.
fn one_more(state: &mut State, last: Part) -> Result<(), AllocError>
    ensures { let next = with_next (part_shape last) (open_shape state.old.inner) in
        let outer = stack state.old.outer.items in
        OnOk result (state_shape state.new ≡ states.At states.Begin next outer) }
{
    let inner = &mut state.inner;
    inner.start = first_start(inner.before.as_slice(), inner.start, last.start);
    with_term(&mut inner.before, last.term)?;
    enter(&mut state.mode, Mode::Begin);
    Ok(())
}

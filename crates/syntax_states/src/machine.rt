//! One token on, from a state to the next.

ghost use Rattle.std.specs.Prelude.{◌≡◌, ◌≤◌, IfOk, true, false};
ghost use Rattle.asp_model.specs.declared.limits.TheConstants.{MOST_LEVEL};
ghost use Rattle.asp_model.specs.Shapes.{sign_shape};
ghost use Rattle.syntax_tokens.specs.Tokens.{lexeme};
ghost use Rattle.syntax_grammar.specs.Nodes.{is_get};
ghost use Rattle.syntax_grammar.specs.States.{operand_part as part_of, test_in as test_of};
ghost use Rattle.syntax_grammar.specs.States as states;
ghost use Rattle.syntax_grammar.specs.Depth.{parentheses_of, parentheses_in};
ghost use Rattle.syntax_grammar.specs.Changes.{changed, call_begun as call_change, begin as begin_change, operand as operand_change, opening as opening_change};
ghost use Rattle.syntax_grammar.specs.Machine.{listing as list_state, have as have_state, behind as behind_state, step as step_state, times as times_state, plus as plus_state, test_behind as test_state, assign as assign_state};
ghost use Rattle.syntax_terms.specs.Shapes.{part_shape, target_shape, kind_shape, open_shape, stack};
ghost use Rattle.syntax_states.specs.Shapes.{operand_shape, opener_shape, mode_shape, state_shape};
ghost use Rattle.syntax_states.specs.Answers.{Becomes, Leaves, Follows, Steps, IsOpener, plain_operand, plain_behind};

use crate::change::{change, plain};
use crate::closing::{bound, close, close_brace, close_square, comma, ended, next_term};
use crate::state::{Mode, Opener, Operand, State, enter, open};
use asp_model::{Sign, Term};
use std::alloc::{AllocError, Global};
use std::mem;
use syntax_terms::{
    Kind, Listing, Part, Stop, Target, Wrap, add, assign, compare, got, listed, multiply,
    new_object, number, refused, stopped, variable,
};
use syntax_tokens::Token;

/// The state one token on, or the term that the end leaves.
#[tactic(auto, using(crate::proofs::Others::mode_other, crate::proofs::Others::step_err, crate::proofs::Others::leaves_err))]
pub fn step(
    alloc: Global,
    state: &mut State,
    token: Token,
    at: usize,
) -> Result<Option<Box<Term>>, Stop>
    requires few { parentheses_in (state_shape state.now) ≤ MOST_LEVEL }
    ensures { let loose = step_state false (state_shape state.old) (lexeme token at) in
        let strict = step_state true (state_shape state.old) (lexeme token at) in
        Steps result state.new loose strict }
{
    match mem::replace(&mut state.mode, Mode::Want) {
        Mode::Begin => begin(alloc, state, token, at)?,
        Mode::Want => operand(alloc, state, token, at)?,
        Mode::Have(operand) => return have(alloc, state, operand, token),
        Mode::ListBegun(target) => listing(alloc, state, target, token, at)?,
        Mode::Opening(opener, kind) => opening(alloc, state, opener, kind, token)?,
        other => enter(&mut state.mode, change(alloc, other, token, at)?),
    }
    Ok(None)
}

// A token that begins a sequence's term.
#[tactic(auto, using(crate::proofs::Refused::begin_other))]
fn begin(alloc: Global, state: &mut State, token: Token, at: usize) -> Result<(), Stop>
    ensures { let inner = open_shape state.old.inner in
        let next = changed (begin_change token at) inner (stack state.old.outer.items) in
        Leaves result state.new next }
{
    match token {
        Token::Let => {
            enter(&mut state.mode, Mode::LetNaming(at));
            Ok(())
        }
        other => operand(alloc, state, other, at),
    }
}

// A token that begins an operand.
#[tactic(auto, using(crate::proofs::Others::operand_becomes, crate::proofs::Others::operand_other, crate::proofs::Others::becomes_err))]
fn operand(alloc: Global, state: &mut State, token: Token, at: usize) -> Result<(), Stop>
    ensures { let inner = open_shape state.old.inner in
        let next = changed (operand_change token at) inner (stack state.old.outer.items) in
        Leaves result state.new next }
{
    match token {
        Token::Open => Ok(open(alloc, state, Kind::InParentheses(at))?),
        other => {
            let mode = operand_mode(alloc, other, at)?;
            enter(&mut state.mode, mode);
            Ok(())
        }
    }
}

// The mode behind a token that begins an operand, but for a bracket.
fn operand_mode(alloc: Global, token: Token, at: usize) -> Result<Mode, Stop>
    ensures { Becomes result (plain_operand token at) }
{
    match token {
        Token::Number(n) => Ok(plain(number(alloc, at, n)?)),
        Token::Name(name) => Ok(plain(variable(alloc, at, name)?)),
        Token::SquareOpen => Ok(Mode::ObjectBegun(new_object(alloc, at))),
        Token::Clone => Ok(round(Kind::InWord(Wrap::Clone, at))),
        Token::Active => Ok(round(Kind::InActive(at))),
        Token::Serve => Ok(Mode::ServeOpening { polls: false, at }),
        Token::Pending => Ok(Mode::ServeOpening { polls: true, at }),
        Token::Repeat => Ok(round(Kind::InWord(Wrap::Repeat, at))),
        Token::Print => Ok(round(Kind::InWord(Wrap::Print, at))),
        Token::If => Ok(round(Kind::InCondition(at))),
        Token::Echo => Ok(Mode::EchoOpening(at)),
        Token::Group => Ok(Mode::GroupOpening(at)),
        Token::Scatter => Ok(round(Kind::InScatter(at))),
        Token::Size => Ok(round(Kind::InWord(Wrap::Size, at))),
        Token::Member => Ok(round(Kind::InMember(at))),
        Token::WaitAll => Ok(round(Kind::InWord(Wrap::WaitAll, at))),
        Token::Text(_)
        | Token::Open
        | Token::Close
        | Token::SquareClose
        | Token::BraceOpen
        | Token::BraceClose
        | Token::Comma
        | Token::Semicolon
        | Token::Dot
        | Token::Equals
        | Token::Assign
        | Token::Plus
        | Token::Minus
        | Token::Star
        | Token::Slash
        | Token::Percent
        | Token::Less
        | Token::Same
        | Token::Let
        | Token::In
        | Token::Else
        | Token::End
        | Token::BadByte
        | Token::BadNumber => refused(token),
    }
}

// A bracket has to come.
fn round(kind: Kind) -> Mode
    ensures { mode_shape result ≡ states.Opening states.ByRound (kind_shape kind) }
{
    Mode::Opening(Opener::ByRound, kind)
}

// Whether a token opens a sequence.
fn is_opener(opener: Opener, token: &Token) -> bool
    ensures { IsOpener result opener token.now }
{
    match opener {
        Opener::ByRound => matches!(token, Token::Open),
        Opener::ByBrace => matches!(token, Token::BraceOpen),
        Opener::ByEquals => matches!(token, Token::Equals),
        Opener::ByComma => matches!(token, Token::Comma),
    }
}

// The token that opens a sequence behind a word or a name.
fn opening(
    alloc: Global,
    state: &mut State,
    opener: Opener,
    kind: Kind,
    token: Token,
) -> Result<(), Stop>
    ensures { let change = opening_change (opener_shape opener) (kind_shape kind) token in
        let next = changed change (open_shape state.old.inner) (stack state.old.outer.items) in
        Leaves result state.new next }
{
    if is_opener(opener, &token) {
        drop(token);
        Ok(open(alloc, state, kind)?)
    } else {
        refused((kind, token))
    }
}

// The first token of a list of terms, or its end.
#[tactic(auto, using(crate::proofs::Others::list_term))]
fn listing(
    alloc: Global,
    state: &mut State,
    target: Target,
    token: Token,
    at: usize,
) -> Result<(), Stop>
    ensures { let inner = open_shape state.old.inner in
        let next = list_state (target_shape target) inner (stack state.old.outer.items) token at in
        Leaves result state.new next }
{
    let terms = Vec::new(alloc);
    let listing = Listing { target, terms };
    match token {
        Token::Close => {
            let mode = plain(listed(alloc, listing)?);
            enter(&mut state.mode, mode);
            Ok(())
        }
        other => match open(alloc, state, Kind::InList(listing)) {
            Ok(()) => begin(alloc, state, other, at),
            Err(_) => stopped(other, Stop::Memory),
        },
    }
}

// A token behind an operand.
#[tactic(auto, using(crate::proofs::Others::have_behind))]
fn have(
    alloc: Global,
    state: &mut State,
    operand: Operand,
    token: Token,
) -> Result<Option<Box<Term>>, Stop>
    requires few { parentheses_of (part_of (operand_shape operand)).term ≤ MOST_LEVEL }
    ensures { let inner = open_shape state.old.inner in
        let outer = stack state.old.outer.items in
        let loose = have_state false (operand_shape operand) inner outer token in
        let strict = have_state true (operand_shape operand) inner outer token in
        Steps result state.new loose strict }
{
    match token {
        Token::Open => {
            call_begun(state, operand)?;
            Ok(None)
        }
        other => match operand_part(alloc, operand) {
            Ok(part) => behind(alloc, state, part, other),
            Err(_) => stopped(other, Stop::Memory),
        },
    }
}

// The bracket of a call stands behind a field access alone.
fn call_begun(state: &mut State, operand: Operand) -> Result<(), Stop>
    ensures { let change = call_change (operand_shape operand) in
        let next = changed change (open_shape state.old.inner) (stack state.old.outer.items) in
        Leaves result state.new next }
{
    match operand {
        Operand::Plain(part) => refused(part),
        Operand::Access(method) => {
            enter(&mut state.mode, Mode::ListBegun(Target::Call(method)));
            Ok(())
        }
    }
}

// The term that an operand is.
fn operand_part(alloc: Global, operand: Operand) -> Result<Part, AllocError>
    ensures { IfOk result (λ p. part_shape p ≡ part_of (operand_shape operand)) }
{
    match operand {
        Operand::Plain(part) => Ok(part),
        Operand::Access(field) => got(alloc, field),
    }
}

// Any token but the bracket of a call.
#[tactic(auto, using(crate::proofs::Others::behind_other))]
fn behind(
    alloc: Global,
    state: &mut State,
    part: Part,
    token: Token,
) -> Result<Option<Box<Term>>, Stop>
    requires few { parentheses_of (part_shape part).term ≤ MOST_LEVEL }
    ensures { let inner = open_shape state.old.inner in
        let outer = stack state.old.outer.items in
        let loose = behind_state false (part_shape part) inner outer token in
        let strict = behind_state true (part_shape part) inner outer token in
        Steps result state.new loose strict }
{
    match token {
        Token::End => Ok(Some(ended(alloc, state, part)?)),
        other => {
            follow(alloc, state, part, other)?;
            Ok(None)
        }
    }
}

// What a token other than the end makes of an expression that was read.
fn follow(alloc: Global, state: &mut State, part: Part, token: Token) -> Result<(), Stop>
    requires few { parentheses_of (part_shape part).term ≤ MOST_LEVEL }
    ensures { let inner = open_shape state.old.inner in
        let outer = stack state.old.outer.items in
        let loose = plain_behind false (part_shape part) inner outer token in
        let strict = plain_behind true (part_shape part) inner outer token in
        Follows result state.new loose strict }
{
    match token {
        Token::Dot => {
            enter(&mut state.mode, Mode::Dotted(part));
            Ok(())
        }
        Token::Star => multiplied(alloc, state, Sign::Multiply, part),
        Token::Slash => multiplied(alloc, state, Sign::Divide, part),
        Token::Percent => multiplied(alloc, state, Sign::Remainder, part),
        Token::Plus => added(alloc, state, Sign::Add, part),
        Token::Minus => added(alloc, state, Sign::Subtract, part),
        Token::Less => compared(alloc, state, Sign::Less, part),
        Token::Same => compared(alloc, state, Sign::Equal, part),
        Token::Assign => assigned(alloc, state, part),
        Token::Semicolon => next_term(alloc, state, part),
        Token::In => bound(alloc, state, part),
        Token::Close => close(alloc, state, part),
        Token::BraceClose => close_brace(alloc, state, part),
        Token::SquareClose => close_square(alloc, state, part),
        Token::Comma => comma(alloc, state, part),
        Token::Number(_)
        | Token::Name(_)
        | Token::Text(_)
        | Token::Open
        | Token::SquareOpen
        | Token::BraceOpen
        | Token::Equals
        | Token::Let
        | Token::If
        | Token::Else
        | Token::Repeat
        | Token::Clone
        | Token::Active
        | Token::Serve
        | Token::Print
        | Token::Echo
        | Token::Group
        | Token::Scatter
        | Token::Size
        | Token::Member
        | Token::WaitAll
        | Token::Pending
        | Token::End
        | Token::BadByte
        | Token::BadNumber => refused((token, part)),
    }
}

// `*`, `/` or `%`.
fn multiplied(alloc: Global, state: &mut State, sign: Sign, part: Part) -> Result<(), Stop>
    ensures { let inner = open_shape state.old.inner in
        let outer = stack state.old.outer.items in
        let next = times_state (sign_shape sign) (part_shape part) inner outer in
        Leaves result state.new next }
{
    multiply(alloc, sign, part, &mut state.inner)?;
    enter(&mut state.mode, Mode::Want);
    Ok(())
}

// `+` or `-`.
fn added(alloc: Global, state: &mut State, sign: Sign, part: Part) -> Result<(), Stop>
    ensures { let inner = open_shape state.old.inner in
        let outer = stack state.old.outer.items in
        let next = plus_state (sign_shape sign) (part_shape part) inner outer in
        Leaves result state.new next }
{
    add(alloc, sign, part, &mut state.inner)?;
    enter(&mut state.mode, Mode::Want);
    Ok(())
}

// `<` or `==`, of which a term has one.
fn compared(alloc: Global, state: &mut State, sign: Sign, part: Part) -> Result<(), Stop>
    ensures { let inner = open_shape state.old.inner in
        let outer = stack state.old.outer.items in
        let next = test_state inner.test (sign_shape sign) (part_shape part) inner outer in
        Leaves result state.new next }
{
    if state.inner.test.is_some() {
        return refused(part);
    }
    compare(alloc, sign, part, &mut state.inner)?;
    enter(&mut state.mode, Mode::Want);
    Ok(())
}

// `:=`, whose left side is a field access.
fn assigned(alloc: Global, state: &mut State, part: Part) -> Result<(), Stop>
    ensures { let inner = open_shape state.old.inner in
        let outer = stack state.old.outer.items in
        let target = test_of inner (part_shape part) in
        let loose = assign_state target true inner outer in
        let strict = assign_state target (is_get target.term) inner outer in
        Follows result state.new loose strict }
{
    assign(alloc, part, &mut state.inner)?;
    enter(&mut state.mode, Mode::Want);
    Ok(())
}

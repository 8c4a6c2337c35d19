//! Reads a text, one token at a time, up to its end or its first fault.

ghost use Rattle.std.specs.Prelude.{◌≡◌, ◌≤◌, None, IfOk, OnOk};
ghost use Rattle.asp_model.specs.declared.limits.TheConstants.{MOST_LEVEL};
ghost use Rattle.asp_model.specs.Marked.{Marked};
ghost use Rattle.asp_model.specs.Shapes.{marked_of};
ghost use Rattle.syntax_tokens.specs.Tokens.{lexemes_of};
ghost use Rattle.syntax_tokens.specs.Cursors.{lexeme_of};
ghost use Rattle.syntax_tokens.specs.Ordered.{IsOrdered};
ghost use Rattle.syntax_tokens.specs.WalkShapes.{walk_shape};
ghost use Rattle.syntax_tokens.specs.Levels.{flat};
ghost use Rattle.syntax_grammar.specs.Machine.{start};
ghost use Rattle.syntax_grammar.specs.Depth.{parentheses_in};
ghost use Rattle.syntax_states.specs.Shapes.{state_shape};
ghost use Rattle.asp_syntax.specs.Faults.{FirstFault};
ghost use Rattle.asp_syntax.specs.Correct.{IsProgramText, IfFault, IsOkWith};
ghost use Rattle.asp_syntax.specs.Read.{bad, read_all, fault_at};
ghost use Rattle.asp_syntax.specs.Answers.{Judges, UnlessDeep, GoesOn, Feeds, Reads};

use crate::error::{SyntaxError, SyntaxFault, SyntaxKind};
use asp_model::{MOST_LEVEL, Program, Term};
use std::alloc::Global;
use syntax_states::{State, start_state, step};
use syntax_terms::{Stop, stopped};
use syntax_tokens::{Cursor, Token, Walk, flat_walk, scan, walk_on};

/// The program that a text is, or its first fault. Time and memory are linear in the text, and only
/// levels are nested.
pub fn read_program(alloc: Global, bytes: &[u8]) -> Result<Program, SyntaxError>
    ensures program { IfOk result (λ p. IsProgramText bytes.now (marked_of p.root)) }
    ensures fault { IfFault result (λ f. FirstFault (lexemes_of bytes.now) f) }
    ensures only { (m : Marked) → IsProgramText bytes.now m → IsOkWith result m }
{
    match read(alloc, bytes) {
        Ok(root) => Ok(Program { root }),
        Err(error) => Err(error),
    }
}

fn read(alloc: Global, bytes: &[u8]) -> Result<Term, SyntaxError>
    ensures { Reads result (read_all (lexemes_of bytes.now)) }
{
    let mut state = start_state(alloc);
    let mut walk = flat_walk(alloc);
    let result = read_from(alloc, bytes, &mut state, &mut walk);
    drop((state, walk));
    result
}

// Reads a text from its first token on.
#[tactic(auto, using(crate::proofs::Feeding::state_few))]
fn read_from(
    alloc: Global,
    bytes: &[u8],
    state: &mut State,
    walk: &mut Walk,
) -> Result<Term, SyntaxError>
    requires start { state_shape state.now ≡ start }
    requires flat { walk_shape walk.now ≡ flat }
    ensures { Reads result (read_all (lexemes_of bytes.now)) }
{
    let mut after = 0;
    loop {
        let here = scan(alloc, bytes, after)?;
        let behind = here.after;
        if let Some(term) = feed(alloc, state, walk, here)? {
            return Ok(Box::into_inner(term));
        }
        after = behind;
    }
}

// The state and the walk one token on, or the term that the end leaves.
#[tactic(auto, using(crate::proofs::Feeding::bad_feeds, crate::proofs::Feeding::token_feeds))]
fn feed(
    alloc: Global,
    state: &mut State,
    walk: &mut Walk,
    here: Cursor,
) -> Result<Option<Box<Term>>, SyntaxError>
    requires low { walk.now.level ≤ MOST_LEVEL }
    requires few { parentheses_in (state_shape state.now) ≤ MOST_LEVEL }
    requires ordered { IsOrdered (walk_shape walk.now) }
    ensures value { let before = walk_shape walk.old in
        Feeds result state.new walk.new (state_shape state.old) before (lexeme_of here) }
    ensures low { OnOk result (walk.new.level ≤ MOST_LEVEL) }
{
    match unread(&here.token) {
        Some(kind) => Err(fault(kind, here.at)),
        None => go_on(alloc, state, walk, here),
    }
}

// The fault of a place at which no token stands.
fn unread(token: &Token) -> Option<SyntaxKind>
    ensures { result ≡ bad token.now None }
{
    match token {
        Token::BadByte => Some(SyntaxKind::BadByte),
        Token::BadNumber => Some(SyntaxKind::BadNumber),
        _ => None,
    }
}

// The same where a token stands.
fn go_on(
    alloc: Global,
    state: &mut State,
    walk: &mut Walk,
    here: Cursor,
) -> Result<Option<Box<Term>>, SyntaxError>
    requires low { walk.now.level ≤ MOST_LEVEL }
    requires few { parentheses_in (state_shape state.now) ≤ MOST_LEVEL }
    requires ordered { IsOrdered (walk_shape walk.now) }
    ensures value { let before = walk_shape walk.old in
        GoesOn result state.new walk.new (state_shape state.old) before (lexeme_of here) }
    ensures low { OnOk result (walk.new.level ≤ MOST_LEVEL) }
{
    match walk_on(walk, &here.token) {
        Ok(()) => judge(alloc, state, walk.level > MOST_LEVEL as usize, here),
        Err(_) => stopped(here, SyntaxError::Memory),
    }
}

#[tactic(auto, using(crate::proofs::Feeding::judgements))]
fn judge(
    alloc: Global,
    state: &mut State,
    is_deep: bool,
    here: Cursor,
) -> Result<Option<Box<Term>>, SyntaxError>
    requires few { parentheses_in (state_shape state.now) ≤ MOST_LEVEL }
    ensures state { Judges result state.new (state_shape state.old) is_deep (lexeme_of here) }
{
    let Cursor {
        token,
        at,
        after: _,
    } = here;
    match step(alloc, state, token, at) {
        Err(Stop::Memory) => Err(SyntaxError::Memory),
        Err(Stop::Unexpected) => Err(fault(SyntaxKind::Unexpected, at)),
        Err(Stop::NotAField) => {
            if is_deep {
                Err(fault(SyntaxKind::TooDeep, at))
            } else {
                Err(fault(SyntaxKind::NotAField, at))
            }
        }
        Ok(next) => unless_deep(next, is_deep, at),
    }
}

// What was left, or the fault of a level that is too high.
fn unless_deep(
    next: Option<Box<Term>>,
    is_deep: bool,
    at: usize,
) -> Result<Option<Box<Term>>, SyntaxError>
    ensures { UnlessDeep result next is_deep at }
{
    if is_deep {
        stopped(next, fault(SyntaxKind::TooDeep, at))
    } else {
        Ok(next)
    }
}

fn fault(kind: SyntaxKind, at: usize) -> SyntaxError
    ensures { result ≡ SyntaxError.Fault (fault_at at kind) }
{
    SyntaxError::Fault(SyntaxFault { at, kind })
}

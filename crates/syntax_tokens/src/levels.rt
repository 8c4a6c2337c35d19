//! The level, token by token.

ghost use Rattle.std.specs.Prelude.{◌≡◌, ◌≤◌, ◌∷◌, OnOk};
ghost use Rattle.asp_model.specs.declared.limits.TheConstants.{MOST_LEVEL};
ghost use Rattle.syntax_tokens.specs.Levels.{walked, flat, opened as opened_walk, closed as closed_walk, higher as higher_walk, with_let as let_walk, set_back as back_walk, without_lets as plain_walk};
ghost use Rattle.syntax_tokens.specs.WalkShapes.{walk_shape, bracket_shape, bracket_stack};
ghost use Rattle.syntax_tokens.specs.Ordered.{IsOrdered};

use crate::token::Token;
use std::alloc::{AllocError, Global};

/// An open bracket.
#[derive(Clone, Copy)]
pub struct Bracket {
    /// The level that it reached.
    pub base: usize,
    /// The `let`s directly in it since then, or since the last comma directly in it.
    pub lets: usize,
    /// The level just before it.
    pub before: usize,
}

/// The level behind some tokens, the innermost open bracket, or what stands outside all, and the
/// others, the innermost last.
#[derive(Drop)]
pub struct Walk {
    pub level: usize,
    pub inner: Bracket,
    pub outer: Vec<Bracket>,
}

/// The walk before any token.
pub fn flat_walk(alloc: Global) -> Walk
    ensures { walk_shape result ≡ flat }
{
    Walk {
        level: 0,
        inner: Bracket {
            base: 0,
            lets: 0,
            before: 0,
        },
        outer: Vec::new(alloc),
    }
}

/// Takes the walk one token on.
pub fn walk_on(walk: &mut Walk, token: &Token) -> Result<(), AllocError>
    requires low { walk.now.level ≤ MOST_LEVEL }
    requires ordered { IsOrdered (walk_shape walk.now) }
    ensures walk { OnOk result (walk_shape walk.new ≡ walked (walk_shape walk.old) token.now) }
{
    match token {
        Token::Open | Token::SquareOpen | Token::BraceOpen => opened(walk)?,
        Token::Close | Token::SquareClose | Token::BraceClose => closed(walk),
        Token::Let => with_let(walk),
        Token::Assign
        | Token::Dot
        | Token::Plus
        | Token::Minus
        | Token::Star
        | Token::Slash
        | Token::Percent
        | Token::Less
        | Token::Same => higher(walk),
        Token::Semicolon | Token::In => set_back(walk),
        Token::Comma => without_lets(walk),
        Token::Number(_)
        | Token::Name(_)
        | Token::Text(_)
        | Token::Equals
        | Token::If
        | Token::Else
        | Token::Repeat
        | Token::Clone
        | Token::Active
        | Token::Serve
        | Token::Print
        | Token::Echo
        | Token::Group
        | Token::Scatter
        | Token::Size
        | Token::Member
        | Token::WaitAll
        | Token::Pending
        | Token::End
        | Token::BadByte
        | Token::BadNumber => {}
    }
    Ok(())
}

fn opened(walk: &mut Walk) -> Result<(), AllocError>
    requires { walk.now.level ≤ MOST_LEVEL }
    ensures { OnOk result (walk_shape walk.new ≡ opened_walk (walk_shape walk.old)) }
{
    with_bracket(&mut walk.outer, walk.inner)?;
    let before = walk.level;
    walk.level = before + 1;
    walk.inner = Bracket {
        base: before + 1,
        lets: 0,
        before,
    };
    Ok(())
}

fn with_bracket(outer: &mut Vec<Bracket>, bracket: Bracket) -> Result<(), AllocError>
    ensures { let grown = bracket_shape bracket ∷ bracket_stack outer.old.items in
        OnOk result (bracket_stack outer.new.items ≡ grown) }
{
    outer.push(bracket)?;
    Ok(())
}

// A closing bracket with no opening one leaves the level.
fn closed(walk: &mut Walk)
    ensures { let outer = bracket_stack walk.old.outer.items in
        walk_shape walk.new ≡ closed_walk (walk_shape walk.old) outer }
{
    if let Some(around) = walk.outer.pop() {
        walk.level = walk.inner.before;
        walk.inner = around;
    }
}

fn higher(walk: &mut Walk)
    requires { walk.now.level ≤ MOST_LEVEL }
    ensures { walk_shape walk.new ≡ higher_walk (walk_shape walk.old) }
{
    walk.level += 1;
}

fn with_let(walk: &mut Walk)
    requires low { walk.now.level ≤ MOST_LEVEL }
    requires ordered { IsOrdered (walk_shape walk.now) }
    ensures { walk_shape walk.new ≡ let_walk (walk_shape walk.old) }
{
    walk.level += 1;
    walk.inner.lets += 1;
}

// The level of the next term of a sequence.
fn set_back(walk: &mut Walk)
    requires low { walk.now.level ≤ MOST_LEVEL }
    requires ordered { IsOrdered (walk_shape walk.now) }
    ensures { walk_shape walk.new ≡ back_walk (walk_shape walk.old) }
{
    walk.level = walk.inner.base + walk.inner.lets;
}

fn without_lets(walk: &mut Walk)
    ensures { walk_shape walk.new ≡ plain_walk (walk_shape walk.old) }
{
    walk.level = walk.inner.base;
    walk.inner.lets = 0;
}

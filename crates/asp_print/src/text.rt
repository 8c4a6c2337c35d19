//! Tokens behind a text, with a blank behind each.
#![tactic(auto, using(crate::proofs::WritingLemmas::writing))]

ghost use Rattle.std.specs.Prelude.{◌≡◌, ◌∷◌, [], ◌++◌, OnOk, replicate, string_bytes};
ghost use Rattle.syntax_tokens.specs.declared.token.Token.TheVariants as tokens;
ghost use Rattle.asp_print.specs.Parts.{with_blank, Writes, point_token, lead_tokens};

use asp_model::Word;
use std::alloc::{AllocError, Global};

/// A token that stands round terms or between them.
#[derive(Clone, Copy, Debug, PartialEq, Eq)]
pub enum Point {
    Open,
    Close,
    Comma,
    Semicolon,
}

/// Writes a word, and a blank.
pub fn put(text: &mut String, word: &str) -> Result<(), AllocError>
    ensures { OnOk result (string_bytes text.new ≡ string_bytes text.old ++ with_blank word.now) }
{
    text.push_str(word)?;
    text.push_str(" ")
}

pub fn put_name(text: &mut String, name: &Word) -> Result<(), AllocError>
    ensures { OnOk result (Writes text.old (tokens.Name name.now ∷ []) text.new) }
{
    put(text, name.as_str())
}

pub fn put_number(alloc: Global, text: &mut String, n: i64) -> Result<(), AllocError>
    ensures { OnOk result (Writes text.old (tokens.Number n ∷ []) text.new) }
{
    let word = format!(in alloc; "{n}")?;
    put(text, word.as_str())
}

/// Writes a text in quotes.
pub fn put_quoted(text: &mut String, quoted: &Word) -> Result<(), AllocError>
    ensures { OnOk result (Writes text.old (tokens.Text quoted.now ∷ []) text.new) }
{
    text.push_str("\"")?;
    text.push_str(quoted.as_str())?;
    put(text, "\"")
}

pub fn put_point(text: &mut String, point: Point) -> Result<(), AllocError>
    ensures { OnOk result (Writes text.old (point_token point ∷ []) text.new) }
{
    match point {
        Point::Open => put(text, "("),
        Point::Close => put(text, ")"),
        Point::Comma => put(text, ","),
        Point::Semicolon => put(text, ";"),
    }
}

/// Writes a point so many times.
pub fn put_times(text: &mut String, point: Point, count: u32) -> Result<(), AllocError>
    ensures { OnOk result (Writes text.old (replicate count (point_token point)) text.new) }
{
    for _ in 0..count {
        put_point(text, point)?;
    }
    Ok(())
}

/// Writes what stands before a piece: nothing before the first of several.
pub fn put_lead(text: &mut String, lead: Option<Point>) -> Result<(), AllocError>
    ensures { OnOk result (Writes text.old (lead_tokens lead) text.new) }
{
    match lead {
        Some(point) => put_point(text, point),
        None => Ok(()),
    }
}

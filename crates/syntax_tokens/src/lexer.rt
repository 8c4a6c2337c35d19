//! Finds the next token of a text.

ghost use Rattle.std.specs.Prelude.{◌≡◌, ◌≢◌, ◌+◌, ◌<◌, ◌≤◌, true, false, length, slice_index, IfOk};
ghost use Rattle.syntax_tokens.specs.Bytes.{is_blank as blank_of, is_letter as letter_of, is_digit as digit_of};
ghost use Rattle.syntax_tokens.specs.Tokens.{Between, InComment};
ghost use Rattle.syntax_tokens.specs.Cursors.{from, lexemes, goes_on, IsAlone};

use crate::byte::{is_blank, is_digit, is_inner, is_letter, is_text, sign};
use crate::token::{Cursor, Token};
use crate::word::{with_byte, word_token};
use asp_model::Word;
use std::alloc::{AllocError, Global};

/// The next token from a place on, behind blanks and comments.
pub fn scan(alloc: Global, bytes: &[u8], at: usize) -> Result<Cursor, AllocError>
    requires { at ≤ length bytes.now }
    ensures value { IfOk result (λ c. lexemes bytes.now c ≡ from Between bytes.now at) }
    ensures within { IfOk result (λ c. c.after ≤ length bytes.now) }
    ensures onward { IfOk result (λ c. goes_on c.token ≡ true → at < c.after) }
{
    let mut i = at;
    while i < bytes.len() {
        let b = bytes[i];
        if is_blank(b) {
            i += 1;
        } else if b != b'/' {
            return first(alloc, bytes, i);
        } else if i + 1 < bytes.len() && bytes[i + 1] == b'/' {
            i = after_comment(bytes, i + 2);
        } else {
            return Ok(Cursor {
                token: Token::Slash,
                at: i,
                after: i + 1,
            });
        }
    }
    Ok(Cursor {
        token: Token::End,
        at: i,
        after: i,
    })
}

// The place behind a comment.
fn after_comment(bytes: &[u8], start: usize) -> usize
    requires { start ≤ length bytes.now }
    ensures value { from Between bytes.now result ≡ from InComment bytes.now start }
    ensures onward { start ≤ result }
    ensures within { result ≤ length bytes.now }
{
    let mut i = start;
    while i < bytes.len() {
        let b = bytes[i];
        i += 1;
        if b == b'\n' {
            return i;
        }
    }
    i
}

// The token that begins at a place with neither a blank nor a `/`.
fn first(alloc: Global, bytes: &[u8], at: usize) -> Result<Cursor, AllocError>
    requires within { at < length bytes.now }
    requires blank { blank_of (slice_index bytes.now at) ≡ false }
    requires slash { slice_index bytes.now at ≢ 47 }
    ensures value { IfOk result (λ c. lexemes bytes.now c ≡ from Between bytes.now at) }
    ensures within { IfOk result (λ c. c.after ≤ length bytes.now) }
    ensures onward { IfOk result (λ c. goes_on c.token ≡ true → at < c.after) }
{
    let b = bytes[at];
    if is_digit(b) {
        Ok(number(bytes, at))
    } else if is_letter(b) {
        word(alloc, bytes, at)
    } else if b == b':' {
        Ok(colon(bytes, at))
    } else if b == b'=' {
        Ok(equals(bytes, at))
    } else if b == b'"' {
        text(alloc, bytes, at)
    } else {
        Ok(alone(bytes, at))
    }
}

// A byte that is a token of its own, or none.
fn alone(bytes: &[u8], at: usize) -> Cursor
    requires within { at < length bytes.now }
    requires alone { IsAlone (slice_index bytes.now at) }
    ensures value { lexemes bytes.now result ≡ from Between bytes.now at }
    ensures within { result.after ≤ length bytes.now }
    ensures onward { at < result.after }
{
    let after = at + 1;
    match sign(bytes[at]) {
        Some(token) => Cursor { token, at, after },
        None => Cursor {
            token: Token::BadByte,
            at,
            after,
        },
    }
}

fn number(bytes: &[u8], start: usize) -> Cursor
    requires within { start < length bytes.now }
    requires blank { blank_of (slice_index bytes.now start) ≡ false }
    requires digit { digit_of (slice_index bytes.now start) ≡ true }
    ensures value { lexemes bytes.now result ≡ from Between bytes.now start }
    ensures within { result.after ≤ length bytes.now }
    ensures onward { start < result.after }
{
    let mut n: u64 = (bytes[start] - b'0') as u64;
    let mut i = start + 1;
    while i < bytes.len() && is_digit(bytes[i]) {
        let more = n as u128 * 10 + (bytes[i] - b'0') as u128;
        if more >= 9_223_372_036_854_775_808 {
            return Cursor {
                token: Token::BadNumber,
                at: start,
                after: i,
            };
        }
        n = more as u64;
        i += 1;
    }
    Cursor {
        token: Token::Number(n as i64),
        at: start,
        after: i,
    }
}

fn word(alloc: Global, bytes: &[u8], start: usize) -> Result<Cursor, AllocError>
    requires within { start < length bytes.now }
    requires blank { blank_of (slice_index bytes.now start) ≡ false }
    requires digit { digit_of (slice_index bytes.now start) ≡ false }
    requires letter { letter_of (slice_index bytes.now start) ≡ true }
    ensures value { IfOk result (λ c. lexemes bytes.now c ≡ from Between bytes.now start) }
    ensures within { IfOk result (λ c. c.after ≤ length bytes.now) }
    ensures onward { IfOk result (λ c. start < c.after) }
{
    let mut text = with_byte(String::new(alloc), bytes[start])?;
    let mut i = start + 1;
    while i < bytes.len() && is_inner(bytes[i]) {
        text = with_byte(text, bytes[i])?;
        i += 1;
    }
    Ok(Cursor {
        token: word_token(text),
        at: start,
        after: i,
    })
}

// The text whose quote stands at a place, or the byte in it that no text has.
fn text(alloc: Global, bytes: &[u8], start: usize) -> Result<Cursor, AllocError>
    requires within { start < length bytes.now }
    requires quote { slice_index bytes.now start ≡ 34 }
    ensures value { IfOk result (λ c. lexemes bytes.now c ≡ from Between bytes.now start) }
    ensures within { IfOk result (λ c. c.after ≤ length bytes.now) }
    ensures onward { IfOk result (λ c. start < c.after) }
{
    let mut text = String::new(alloc);
    let mut i = start + 1;
    while i < bytes.len() {
        let b = bytes[i];
        if b == b'"' {
            return Ok(Cursor {
                token: Token::Text(Word::new(text)),
                at: start,
                after: i + 1,
            });
        }
        if !is_text(b) {
            return Ok(Cursor {
                token: Token::BadByte,
                at: i,
                after: i,
            });
        }
        text = with_byte(text, b)?;
        i += 1;
    }
    Ok(Cursor {
        token: Token::BadByte,
        at: i,
        after: i,
    })
}

// `:=`, or a `:` alone, which is no token.
fn colon(bytes: &[u8], start: usize) -> Cursor
    requires within { start < length bytes.now }
    requires colon { slice_index bytes.now start ≡ 58 }
    ensures value { lexemes bytes.now result ≡ from Between bytes.now start }
    ensures within { result.after ≤ length bytes.now }
    ensures onward { start < result.after }
{
    let second = start + 1;
    if second < bytes.len() && bytes[second] == b'=' {
        Cursor {
            token: Token::Assign,
            at: start,
            after: start + 2,
        }
    } else {
        Cursor {
            token: Token::BadByte,
            at: start,
            after: second,
        }
    }
}

// `==`, or `=` alone.
fn equals(bytes: &[u8], start: usize) -> Cursor
    requires within { start < length bytes.now }
    requires equals { slice_index bytes.now start ≡ 61 }
    ensures value { lexemes bytes.now result ≡ from Between bytes.now start }
    ensures within { result.after ≤ length bytes.now }
    ensures onward { start < result.after }
{
    let second = start + 1;
    if second < bytes.len() && bytes[second] == b'=' {
        Cursor {
            token: Token::Same,
            at: start,
            after: start + 2,
        }
    } else {
        Cursor {
            token: Token::Equals,
            at: start,
            after: second,
        }
    }
}

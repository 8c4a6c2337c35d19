//! The tokens at a place of a text and before it.

ghost use Rattle.std.specs.Prelude.{◌≤◌, length};

use std::alloc::{AllocError, Global};
use syntax_tokens::scan;

/// Where a token stands, from its first byte to the place behind it. Nothing stands where these are
/// the same.
#[derive(Clone, Copy)]
pub struct Span {
    pub from: usize,
    pub to: usize,
}

/// The token at a place and the two before it, of which one that is too long is not shown, and
/// whether the place is the end.
#[derive(Clone, Copy)]
pub struct Around {
    pub first: Span,
    pub before: Span,
    pub here: Span,
    pub is_end: bool,
}

// A token that is longer than this is shown by none of its bytes.
const MOST_SHOWN: usize = 60;

const NOTHING: Span = Span { from: 0, to: 0 };

/// The tokens round a place at which a token stands, or none.
pub fn tokens_round(alloc: Global, bytes: &[u8], at: usize) -> Result<Around, AllocError> {
    let mut first = NOTHING;
    let mut before = NOTHING;
    let mut after = 0;
    while after < at && after < bytes.len() {
        let token = next(alloc, bytes, after)?;
        if token.from >= at || token.to <= after {
            break;
        }
        first = before;
        before = if_short(token);
        after = token.to;
    }
    Ok(Around {
        first,
        before,
        here: token_at(alloc, bytes, at)?,
        is_end: at >= bytes.len(),
    })
}

// Where the next token from a place on stands.
fn next(alloc: Global, bytes: &[u8], at: usize) -> Result<Span, AllocError>
    requires within { at ≤ length bytes.now }
{
    let token = scan(alloc, bytes, at)?;
    Ok(Span {
        from: token.at,
        to: token.after,
    })
}

// The token that begins at a place; a byte that begins none alone.
fn token_at(alloc: Global, bytes: &[u8], at: usize) -> Result<Span, AllocError> {
    if at >= bytes.len() {
        return Ok(NOTHING);
    }
    let token = next(alloc, bytes, at)?;
    if token.from == at && at < token.to {
        Ok(if_short(token))
    } else {
        Ok(Span {
            from: at,
            to: at + 1,
        })
    }
}

fn if_short(token: Span) -> Span {
    if token.to.abs_diff(token.from) <= MOST_SHOWN {
        token
    } else {
        NOTHING
    }
}

/// What stands there.
pub fn text(bytes: &[u8], span: Span) -> &str {
    if span.from <= span.to && span.to <= bytes.len() {
        std::str::from_utf8(&bytes[span.from..span.to]).unwrap_or("")
    } else {
        ""
    }
}

/// Whether this stands there.
pub fn is(bytes: &[u8], span: Span, word: &str) -> bool {
    text(bytes, span) == word
}

/// The first byte of what stands there, or 0.
pub fn first_byte(bytes: &[u8], span: Span) -> u8 {
    if span.from < span.to && span.from < bytes.len() {
        bytes[span.from]
    } else {
        0
    }
}

/// The name that begins at a place.
pub fn name_at(bytes: &[u8], at: usize) -> &str {
    text(
        bytes,
        Span {
            from: at,
            to: name_end(bytes, at),
        },
    )
}

/// The name that begins at a place, as far as 60 bytes.
pub fn short_name_at(bytes: &[u8], at: usize) -> &str {
    let to = name_end(bytes, at).min(at.saturating_add(MOST_SHOWN));
    text(bytes, Span { from: at, to })
}

// The place behind the name that begins at a place.
fn name_end(bytes: &[u8], at: usize) -> usize {
    let mut end = at;
    while end < bytes.len() && is_inner(bytes[end]) {
        end += 1;
    }
    end
}

/// A byte of a name.
pub fn is_inner(byte: u8) -> bool {
    byte.is_ascii_alphanumeric() || byte == b'_'
}

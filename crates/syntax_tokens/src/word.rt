//! Words: reserved ones, and names.

ghost use Rattle.std.specs.Prelude.{◌≡◌, ◌++◌, ◌∷◌, [], ◌<◌, IfOk, string_bytes};
ghost use Rattle.syntax_tokens.specs.Bytes.{reserved_token, word_token as token_of};

use crate::token::Token;
use asp_model::Word;
use std::alloc::AllocError;

/// The text with one more byte behind it.
pub fn with_byte(mut text: String, b: u8) -> Result<String, AllocError>
    requires ascii { b < 128 }
    ensures text { IfOk result (λ t. string_bytes t ≡ string_bytes text ++ b ∷ []) }
{
    text.push(b as char)?;
    Ok(text)
}

/// The token of a word: a name, unless it is reserved.
#[tactic(auto, unfolding(crate::specs::Bytes::word_token))]
pub fn word_token(text: String) -> Token
    ensures token { result ≡ token_of (string_bytes text) }
{
    match reserved(text.as_bytes()) {
        Some(token) => token,
        None => Token::Name(Word::new(text)),
    }
}

fn reserved(word: &[u8]) -> Option<Token>
    ensures { result ≡ reserved_token word.now }
{
    if word == b"let".as_slice() {
        Some(Token::Let)
    } else if word == b"in".as_slice() {
        Some(Token::In)
    } else if word == b"if".as_slice() {
        Some(Token::If)
    } else if word == b"else".as_slice() {
        Some(Token::Else)
    } else if word == b"repeat".as_slice() {
        Some(Token::Repeat)
    } else if word == b"clone".as_slice() {
        Some(Token::Clone)
    } else if word == b"active".as_slice() {
        Some(Token::Active)
    } else if word == b"serve".as_slice() {
        Some(Token::Serve)
    } else if word == b"print".as_slice() {
        Some(Token::Print)
    } else if word == b"echo".as_slice() {
        Some(Token::Echo)
    } else if word == b"group".as_slice() {
        Some(Token::Group)
    } else if word == b"scatter".as_slice() {
        Some(Token::Scatter)
    } else if word == b"size".as_slice() {
        Some(Token::Size)
    } else if word == b"member".as_slice() {
        Some(Token::Member)
    } else if word == b"waitall".as_slice() {
        Some(Token::WaitAll)
    } else if word == b"pending".as_slice() {
        Some(Token::Pending)
    } else {
        None
    }
}

//! What a byte is to the lexer.

ghost use Rattle.std.specs.Prelude.{◌≡◌};
ghost use Rattle.asp_model.specs.WellFormed.{is_printable as text_of};
ghost use Rattle.syntax_tokens.specs.Bytes.{is_blank as blank_of, is_letter as letter_of, is_inner as inner_of, is_digit as digit_of, sign_token};

use crate::token::Token;

/// A byte that only stands between tokens.
pub fn is_blank(b: u8) -> bool
    ensures { result ≡ blank_of b }
{
    b == b' ' || b == b'\t' || b == b'\r' || b == b'\n'
}

/// A byte that begins a word.
pub fn is_letter(b: u8) -> bool
    ensures { result ≡ letter_of b }
{
    (b >= b'A' && b <= b'Z') || (b >= b'a' && b <= b'z') || b == b'_'
}

/// A byte of a number.
pub fn is_digit(b: u8) -> bool
    ensures { result ≡ digit_of b }
{
    b >= b'0' && b <= b'9'
}

/// A byte of a word, from its second on.
pub fn is_inner(b: u8) -> bool
    ensures { result ≡ inner_of b }
{
    is_letter(b) || is_digit(b)
}

/// A byte that may stand inside a text, if it is no quote.
pub fn is_text(b: u8) -> bool
    ensures { result ≡ text_of b }
{
    b >= b' ' && b <= b'~'
}

/// The token that a byte is alone, whatever follows.
pub fn sign(b: u8) -> Option<Token>
    ensures { result ≡ sign_token b }
{
    match b {
        b'(' => Some(Token::Open),
        b')' => Some(Token::Close),
        b'[' => Some(Token::SquareOpen),
        b']' => Some(Token::SquareClose),
        b'{' => Some(Token::BraceOpen),
        b'}' => Some(Token::BraceClose),
        b',' => Some(Token::Comma),
        b';' => Some(Token::Semicolon),
        b'.' => Some(Token::Dot),
        b'+' => Some(Token::Plus),
        b'-' => Some(Token::Minus),
        b'*' => Some(Token::Star),
        b'%' => Some(Token::Percent),
        b'<' => Some(Token::Less),
        _ => None,
    }
}

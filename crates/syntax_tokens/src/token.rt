//! Tokens, and where they stand.

use asp_model::Word;

/// A token of a text, or that none stands at a place.
#[derive(Drop)]
pub enum Token {
    Number(i64),
    Name(Word),
    /// The bytes between the quotes.
    Text(Word),
    Open,
    Close,
    SquareOpen,
    SquareClose,
    BraceOpen,
    BraceClose,
    Comma,
    Semicolon,
    Dot,
    Equals,
    Assign,
    Plus,
    Minus,
    Star,
    Slash,
    Percent,
    Less,
    /// `==`
    Same,
    Let,
    In,
    If,
    Else,
    Repeat,
    Clone,
    Active,
    Serve,
    Print,
    Echo,
    Group,
    Scatter,
    Size,
    Member,
    WaitAll,
    Pending,
    /// The end of the text.
    End,
    /// No token begins or goes on here.
    BadByte,
    /// A number that is too large begins here.
    BadNumber,
}

/// A token of a text, its place, and the place behind it.
#[derive(Drop)]
pub struct Cursor {
    pub token: Token,
    pub at: usize,
    pub after: usize,
}

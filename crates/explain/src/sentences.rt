//! What a fault is, in a sentence.

use crate::around::{Around, first_byte, text};
use asp_check::CheckKind;
use asp_syntax::SyntaxKind;
use std::alloc::{AllocError, Global};

// What stands before a name and behind it in a sentence. Where nothing stands behind, the sentence
// has no name.
type Words = (&'static str, &'static str);

/// A sentence with a name in it.
pub fn named(alloc: Global, before: &str, name: &str, behind: &str) -> Result<String, AllocError> {
    format!(in alloc; "{before}`{name}{behind}")
}

/// What is wrong at a token.
pub fn syntax_sentence(
    alloc: Global,
    kind: SyntaxKind,
    bytes: &[u8],
    around: &Around,
) -> Result<String, AllocError> {
    let (before, behind) = syntax_words(kind, first_byte(bytes, around.here), around.is_end);
    if behind.is_empty() {
        String::from_str(alloc, before)
    } else {
        named(alloc, before, text(bytes, around.here), behind)
    }
}

// By the kind, by the byte that the token begins with, and by whether the place is the end.
fn syntax_words(kind: SyntaxKind, byte: u8, is_end: bool) -> Words {
    match kind {
        SyntaxKind::BadByte => byte_words(byte, is_end),
        SyntaxKind::BadNumber => ("the greatest number is 9223372036854775807", ""),
        SyntaxKind::Unexpected => token_words(byte, is_end),
        SyntaxKind::TooDeep => ("more than 200 levels are open here", ""),
        SyntaxKind::NotAField => ("what stands on the left of this `:=` is no field", ""),
    }
}

fn byte_words(byte: u8, is_end: bool) -> Words {
    if is_end || byte == b'\n' || byte == b'\r' || byte == b'\t' {
        ("a text is not closed by a `\"` before this place", "")
    } else if is_printable(byte) {
        ("", "` is no sign of the language")
    } else {
        ("this byte is no sign of the language", "")
    }
}

fn token_words(byte: u8, is_end: bool) -> Words {
    if is_end {
        ("the program breaks off here", "")
    } else if is_printable(byte) {
        ("no program goes on with ", "` here")
    } else {
        ("no program goes on in this way", "")
    }
}

// Whether a token can be shown that begins with this byte.
fn is_printable(byte: u8) -> bool {
    32 <= byte && byte <= 126
}

/// What is wrong at a name or a label, and with how many parameters or arguments it stands there.
pub fn check_sentence(
    alloc: Global,
    kind: CheckKind,
    name: &str,
    count: usize,
) -> Result<String, AllocError> {
    if let CheckKind::Arity = kind {
        format!(in alloc;
            "the number of parameters or arguments of `{name}` is {count} here, and another before"
        )
    } else {
        let (before, behind) = check_words(kind);
        named(alloc, before, name, behind)
    }
}

fn check_words(kind: CheckKind) -> Words {
    match kind {
        CheckKind::Unbound => ("nothing round this place binds ", "`"),
        CheckKind::DoubleLabel => ("the object has the label ", "` twice"),
        CheckKind::DoubleParameter => ("the head of the method has the name ", "` twice"),
        CheckKind::TooManyParameters => ("", "` has more than 8 parameters or arguments here"),
        CheckKind::Arity | CheckKind::ServiceArity => (
            "an activity begins with ",
            "()`, which has parameters or arguments before",
        ),
    }
}

/// What the other place has: the label or name there, and the number of its parameters or arguments.
pub fn other_sentence(
    alloc: Global,
    kind: CheckKind,
    name: &str,
    count: usize,
) -> Result<String, AllocError> {
    match kind {
        CheckKind::Arity | CheckKind::ServiceArity => {
            format!(in alloc; "the first place of `{name}`, with the number {count}")
        }
        _ => named(alloc, "the first ", name, "`"),
    }
}

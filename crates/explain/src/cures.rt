//! Common cures. Each is a guess by the tokens before a fault, and no more is known than these.

use crate::around::{Around, first_byte, is, is_inner};
use asp_check::CheckKind;
use asp_syntax::SyntaxKind;

/// How a fault of the text is mended, as a rule.
pub fn syntax_cure(kind: SyntaxKind, bytes: &[u8], around: &Around) -> Option<&'static str> {
    match kind {
        SyntaxKind::BadByte => byte_cure(first_byte(bytes, around.here)),
        SyntaxKind::BadNumber => None,
        SyntaxKind::Unexpected => token_cure(bytes, around),
        SyntaxKind::TooDeep => Some("name a part of it: `let part = .. in ..`"),
        SyntaxKind::NotAField => {
            Some("a field is set, as in `self.x := 1`; a name of a `let` or a parameter is not")
        }
    }
}

// At a byte that begins no token.
fn byte_cure(byte: u8) -> Option<&'static str> {
    match byte {
        b'>' => Some("`x > 3` is written `3 < x`"),
        b'!' => Some("`not a` is written `a == 0`"),
        b'&' => Some("`a and b` is written `a * b`, if both are 0 or 1"),
        b'|' => Some("`a or b` is written `0 < a + b`, if both are 0 or 1"),
        b':' => Some("a field is set by `:=`"),
        b'#' => Some("a comment begins with `//`"),
        b'\'' => Some("a text stands between two `\"`"),
        128..=255 => Some("only ASCII signs stand outside of comments"),
        _ => None,
    }
}

fn token_cure(bytes: &[u8], around: &Around) -> Option<&'static str> {
    let before = first_byte(bytes, around.before);
    if around.is_end {
        return end_cure(before);
    }
    match first_byte(bytes, around.here) {
        b')' | b']' | b'}' => close_cure(before),
        b'(' => call_cure(first_byte(bytes, around.first), before),
        b'-' => Some("`-3` is written `0 - 3`"),
        b'=' if is(bytes, around.here, "=") => Some(
            "`==` compares two numbers, and `:=` sets a field",
        ),
        b'=' | b'<' => Some(
            "two numbers are compared at a time: put one comparison in parentheses",
        ),
        b'"' => Some("a text stands in `echo(\"..\")` alone"),
        here => word_cure(bytes, around, here, before),
    }
}

// At the end of the text, behind a token that begins with this byte.
fn end_cure(before: u8) -> Option<&'static str> {
    match before {
        b';' => Some("`;` stands between two terms: leave it out behind the last one"),
        0 => Some("a program has one term at least"),
        _ => Some("a bracket is still open, a `let` has no `in`, or an `if` has no `else`"),
    }
}

fn close_cure(before: u8) -> Option<&'static str> {
    match before {
        b';' => Some("`;` stands between two terms: leave it out behind the last one"),
        b',' => Some("`,` stands between two: leave it out behind the last one"),
        _ => None,
    }
}

// Behind a name or a word.
fn call_cure(first: u8, before: u8) -> Option<&'static str> {
    if first == b'[' || first == b',' {
        Some("methods stand behind a `;`, also where there is no field: `[; m(self) = 1]`")
    } else if is_inner(before) {
        Some("a method is called on an object, as in `self.m(1)`")
    } else {
        None
    }
}

// Where a name or a number stands, or a sign that has no cure of its own.
fn word_cure(bytes: &[u8], around: &Around, here: u8, before: u8) -> Option<&'static str> {
    if is(bytes, around.here, "else") {
        return Some("an `if` has its braces, and no `;` before `else`: `if (n) { a } else { b }`");
    }
    if is_inner(here) && is(bytes, around.first, "echo") {
        return Some("`echo` takes a text, as in `echo(\"name\")`; `print` takes a number");
    }
    if before == b'.' || is(bytes, around.before, "let") {
        return Some("it is a word of the language, and no name");
    }
    if before == b'}' {
        return Some("is an `else` or a `;` missing before it?");
    }
    if is_inner(before) || before == b')' || before == b']' {
        return Some("is a `;` missing before it?");
    }
    None
}

/// How a fault of the check is mended, as a rule: of a name that a field of the program has or not.
pub fn check_cure(kind: CheckKind, name: &str, is_field: bool) -> Option<&'static str> {
    match kind {
        CheckKind::Unbound => unbound_cure(name, is_field),
        CheckKind::DoubleLabel | CheckKind::DoubleParameter => Some(
            "give one of them another name",
        ),
        CheckKind::TooManyParameters => Some("put some of them into an object"),
        CheckKind::Arity => {
            Some(
                "a label has one number of parameters in the whole program: give one another label",
            )
        }
        CheckKind::ServiceArity => {
            Some("the method that an activity begins with has no parameter beside its object")
        }
    }
}

fn unbound_cure(name: &str, is_field: bool) -> Option<&'static str> {
    if name == "true" || name == "false" {
        return Some("there are no such values: 1 stands for true, and 0 for false");
    }
    if is_field {
        return Some("a field is reached through its object, as in `self.x`");
    }
    Some("names are bound by `let name = .. in` and by the heads of methods")
}

//! Texts in XML.

use crate::text_pieces::Telling;

/// More characters of a text are not shown.
const MOST_SHOWN: usize = 24;

fn is_shown(c: char) -> bool {
    c >= ' ' && c != '\u{FFFE}' && c != '\u{FFFF}'
}

fn push_escaped(out: &mut Telling, c: char) {
    match c {
        '&' => out.push("&amp;"),
        '<' => out.push("&lt;"),
        '>' => out.push("&gt;"),
        '"' => out.push("&quot;"),
        c if is_shown(c) => push_char(out, c),
        _ => out.push("?"),
    }
}

fn push_char(out: &mut Telling, c: char) {
    let done = out.text.push(c);
    out.note(done);
}

/// How many characters of a text are shown.
pub fn shown_len(text: &str) -> u64 {
    text.chars().take(MOST_SHOWN + 1).count() as u64
}

/// Adds a text as XML has it.
pub fn push_whole(out: &mut Telling, text: &str) {
    for c in text.chars() {
        push_escaped(out, c);
    }
}

/// Adds a text as XML has it, cut off where it is long.
pub fn push_short(out: &mut Telling, text: &str) {
    for c in text.chars().take(MOST_SHOWN) {
        push_escaped(out, c);
    }
    if shown_len(text) > MOST_SHOWN as u64 {
        out.push("…");
    }
}

/// Adds a form: each `@` in it is the next of these numbers, and each `~` the text, as XML has it
/// and cut off where it is long.
pub fn push_form(out: &mut Telling, form: &str, numbers: &[u64], text: &str) {
    let mut next = 0;
    for c in form.chars() {
        match c {
            '~' => push_short(out, text),
            '@' if next < numbers.len() => {
                out.push_count(numbers[next]);
                next += 1;
            }
            c => push_char(out, c),
        }
    }
}

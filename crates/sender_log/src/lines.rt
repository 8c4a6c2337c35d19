//! The lines of a report.

ghost use Rattle.std.specs.Prelude.{◌≡◌, [], ◌∷◌, codes, map, IfOk};
ghost use Rattle.std.specs.Option.{option_map};
ghost use Rattle.asp_model.specs.Names.{same_text};
ghost use Rattle.asp_model.specs.Shapes.{reception_shape};
ghost use Rattle.asp_model.specs.Term.{has_text};
ghost use Rattle.asp_model.specs.ReportLines.{parts, verdict_lines, fault_texts, are_status_words, counted as counted_of, activity_in as activity_in_words, senders_of as senders_in_words, all_found, reception_in as reception_in_word, is_output as is_output_line};
ghost use Rattle.sender_log.specs.Last.{IsLast, last_read};

use asp_model::{ActivityName, Reception};
use std::alloc::{AllocError, Global};
use text_lines::{count_of, cut, is_future, name_of};

/// Whether a line is the title of a report of the first version.
pub fn is_title(line: &[u8]) -> bool
    ensures title { result ≡ same_text line.now (codes "asp report 1") }
{
    line == b"asp report 1".as_slice()
}

/// Whether a line is the title of a report whose logs may have polls.
pub fn is_title_with_polls(line: &[u8]) -> bool
    ensures title { result ≡ same_text line.now (codes "asp report 2") }
{
    line == b"asp report 2".as_slice()
}

/// Whether a line tells a verdict.
pub fn is_verdict(line: &[u8]) -> bool
    ensures verdict { result ≡ has_text line.now verdict_lines }
{
    line == b"verdict end".as_slice()
        || line == b"verdict blocked".as_slice()
        || line == b"verdict budget".as_slice()
}

/// Whether a line is a number, a text or a state.
pub fn is_output(line: &[u8]) -> bool
    ensures output { result ≡ is_output_line line.now }
{
    match line {
        [mark, space, ..] => matches!(*mark, b'>' | b'|' | b'.') && *space == b' ',
        _ => false,
    }
}

/// The name and the count that an activity line shows.
pub fn activity_in(alloc: Global, line: &[u8]) -> Result<Option<(ActivityName, u64)>, AllocError>
    ensures activity { IfOk result (λ o. o ≡ activity_in_words (parts 32 line.now)) }
{
    let words = cut(alloc, b' ', line)?;
    activity_of(alloc, &words)
}

fn activity_of(alloc: Global, words: &[&[u8]]) -> Result<Option<(ActivityName, u64)>, AllocError>
    ensures { IfOk result (λ o. o ≡ activity_in_words (map (λ w. w.now) words.now)) }
{
    match words {
        [word, name, count, ..] => activity_with(alloc, word, name, count, &words[3..]),
        _ => Ok(None),
    }
}

fn activity_with(
    alloc: Global,
    word: &[u8],
    name: &[u8],
    count: &[u8],
    status: &[&[u8]],
) -> Result<Option<(ActivityName, u64)>, AllocError>
    ensures { let words = word.now ∷ name.now ∷ count.now ∷ map (λ w. w.now) status.now in
        IfOk result (λ o. o ≡ activity_in_words words) }
{
    if word != b"activity".as_slice() {
        return Ok(None);
    }
    if !is_status(alloc, status)? {
        return Ok(None);
    }
    let name = name_of(alloc, name)?;
    Ok(counted(name, count_of(count)))
}

fn counted(name: Option<ActivityName>, count: Option<u64>) -> Option<(ActivityName, u64)>
    ensures { result ≡ counted_of name count }
{
    match (name, count) {
        (Some(name), Some(count)) => Some((name, count)),
        _ => None,
    }
}

// Whether the words tell what an activity does.
fn is_status(alloc: Global, words: &[&[u8]]) -> Result<bool, AllocError>
    ensures { IfOk result (λ b. b ≡ are_status_words (map (λ w. w.now) words.now)) }
{
    match words {
        [word] => Ok(is_plain_status(word)),
        [word, rest] => is_longer_status(alloc, word, rest),
        _ => Ok(false),
    }
}

fn is_plain_status(word: &[u8]) -> bool
    ensures { result ≡ has_text word.now (codes "done" ∷ codes "serving" ∷ codes "running" ∷ []) }
{
    word == b"done".as_slice() || word == b"serving".as_slice() || word == b"running".as_slice()
}

fn is_longer_status(alloc: Global, word: &[u8], rest: &[u8]) -> Result<bool, AllocError>
    ensures { IfOk result (λ b. b ≡ are_status_words (word.now ∷ rest.now ∷ [])) }
{
    if word == b"awaits".as_slice() {
        return is_future(alloc, rest);
    }
    Ok(word == b"fault".as_slice() && is_fault(rest))
}

fn is_fault(text: &[u8]) -> bool
    ensures { result ≡ has_text text.now fault_texts }
{
    text == b"NoField".as_slice()
        || text == b"NoMethod".as_slice()
        || text == b"NotObject".as_slice()
        || text == b"NotNumber".as_slice()
        || text == b"NotGroup".as_slice()
        || text == b"BadMember".as_slice()
        || text == b"ActiveField".as_slice()
        || text == b"Overflow".as_slice()
        || text == b"ZeroDivisor".as_slice()
}

/// The log that a senders line shows, with polls where it may have them.
pub fn senders_in(
    alloc: Global,
    line: &[u8],
    polls: bool,
) -> Result<Option<Vec<Reception>>, AllocError>
    ensures senders { let words = parts 32 line.now in IfOk result
        (λ o. option_map (λ v. map reception_shape v.items) o ≡ senders_in_words polls words) }
{
    let words = cut(alloc, b' ', line)?;
    senders_of(alloc, &words, polls)
}

fn senders_of(
    alloc: Global,
    words: &[&[u8]],
    polls: bool,
) -> Result<Option<Vec<Reception>>, AllocError>
    ensures { let texts = map (λ w. w.now) words.now in IfOk result
        (λ o. option_map (λ v. map reception_shape v.items) o ≡ senders_in_words polls texts) }
{
    if words.is_empty() || words[0] != b"senders".as_slice() {
        return Ok(None);
    }
    receptions_in(alloc, &words[1..], polls)
}

fn receptions_in(
    alloc: Global,
    words: &[&[u8]],
    polls: bool,
) -> Result<Option<Vec<Reception>>, AllocError>
    ensures { let all = all_found (reception_in_word polls) (map (λ w. w.now) words.now) in
        IfOk result (λ o. option_map (λ v. map reception_shape v.items) o ≡ all) }
{
    let mut log = Vec::new(alloc);
    // An empty text names nobody, as an empty log has no last.
    let mut last: &[u8] = b"".as_slice();
    for word in words {
        match reception_behind(alloc, &log, last, word, polls)? {
            Some(reception) => log.push(reception)?,
            None => return Ok(None),
        }
        last = *word;
    }
    Ok(Some(log))
}

// What a word says behind the word that the last of a log was read from. Mostly they are the same
// word, and a copy takes less than reading it.
fn reception_behind(
    alloc: Global,
    log: &[Reception],
    last: &[u8],
    word: &[u8],
    polls: bool,
) -> Result<Option<Reception>, AllocError>
    requires { IsLast polls log.now last.now }
    ensures { IfOk result (λ o. option_map reception_shape o ≡ reception_in_word polls word.now) }
{
    if word == last {
        last_of(alloc, log)
    } else {
        reception_in(alloc, word, polls)
    }
}

fn last_of(alloc: Global, log: &[Reception]) -> Result<Option<Reception>, AllocError>
    ensures { IfOk result (λ o. option_map reception_shape o ≡ last_read log.now) }
{
    match log.last() {
        Some(reception) => Ok(Some(copy_of(alloc, reception)?)),
        None => Ok(None),
    }
}

fn copy_of(alloc: Global, reception: &Reception) -> Result<Reception, AllocError>
    ensures { IfOk result (λ r. reception_shape r ≡ reception_shape reception.now) }
{
    match reception {
        Reception::From(name) => Ok(Reception::From(name.copy(alloc)?)),
        Reception::Poll => Ok(Reception::Poll),
    }
}

// A sender's name, or a poll where there may be polls.
fn reception_in(alloc: Global, word: &[u8], polls: bool) -> Result<Option<Reception>, AllocError>
    ensures { IfOk result (λ o. option_map reception_shape o ≡ reception_in_word polls word.now) }
{
    if polls && word == b"?".as_slice() {
        return Ok(Some(Reception::Poll));
    }
    match name_of(alloc, word)? {
        Some(name) => Ok(Some(Reception::From(name))),
        None => Ok(None),
    }
}

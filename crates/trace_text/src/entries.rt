//! The lines of entries.

ghost use Rattle.std.specs.Prelude.{◌≡◌, ◌∷◌, [], Some, map, IfOk};
ghost use Rattle.std.specs.Option.{option_map};
ghost use Rattle.asp_model.specs.History.{Delivered};
ghost use Rattle.asp_model.specs.Shapes.{delivery_shape, entry_shape, future_shape};
ghost use Rattle.trace_text.specs.Traces.{committed_by, delivery_of as delivery_by_words, edge_by, entry_of as entry_in, entry_of_words, lent_by, need_by};

use asp_model::{ActivityName, Delivery, Entry, FutureName, Place};
use std::alloc::{AllocError, Global};
use text_lines::{cut, future_of, name_of, number_of, place_of};

/// The entry that a line is, where it is one.
pub fn entry_of(alloc: Global, line: &[u8]) -> Result<Option<Entry>, AllocError>
    ensures entry { IfOk result (λ o. option_map entry_shape o ≡ entry_in line.now) }
{
    let words = cut(alloc, b' ', line)?;
    entry_with(alloc, &words)
}

fn entry_with(alloc: Global, words: &[&[u8]]) -> Result<Option<Entry>, AllocError>
    ensures { let texts = map (λ w. w.now) words.now in
        IfOk result (λ o. option_map entry_shape o ≡ entry_of_words texts) }
{
    match words {
        [word, first, rest @ ..] => entry_by(alloc, word, first, rest),
        _ => Ok(None),
    }
}

fn entry_by(
    alloc: Global,
    word: &[u8],
    first: &[u8],
    rest: &[&[u8]],
) -> Result<Option<Entry>, AllocError>
    ensures { let texts = word.now ∷ first.now ∷ map (λ w. w.now) rest.now in
        IfOk result (λ o. option_map entry_shape o ≡ entry_of_words texts) }
{
    match rest {
        [] => Ok(lent(word, first)),
        [second] => Ok(committed(word, first, second)),
        [second, third] => delivered(alloc, word, first, second, third),
        _ => Ok(None),
    }
}

fn lent(word: &[u8], number: &[u8]) -> Option<Entry>
    ensures { option_map entry_shape result ≡ entry_of_words (word.now ∷ number.now ∷ []) }
{
    if word != b"lent".as_slice() {
        return None;
    }
    match number_of(number) {
        Some(number) => Some(Entry::Lent(number)),
        None => None,
    }
}

fn committed(word: &[u8], number: &[u8], reductions: &[u8]) -> Option<Entry>
    ensures { let words = word.now ∷ number.now ∷ reductions.now ∷ [] in
        option_map entry_shape result ≡ entry_of_words words }
{
    if word != b"committed".as_slice() {
        return None;
    }
    commit_by(number_of(number), number_of(reductions))
}

fn commit_by(number: Option<u32>, reductions: Option<u32>) -> Option<Entry>
    ensures { option_map entry_shape result ≡ committed_by number reductions }
{
    match (number, reductions) {
        (Some(number), Some(reductions)) => Some(Entry::Committed {
            number,
            reductions: u64::from(reductions),
        }),
        _ => None,
    }
}

fn delivered(
    alloc: Global,
    word: &[u8],
    future: &[u8],
    first: &[u8],
    second: &[u8],
) -> Result<Option<Entry>, AllocError>
    ensures { IfOk result (λ o. option_map entry_shape o
        ≡ delivery_by_words word.now future.now first.now second.now) }
{
    if word == b"edge".as_slice() {
        let future = future_of(alloc, future)?;
        return edge(
            alloc,
            future,
            name_of(alloc, first)?,
            name_of(alloc, second)?,
        );
    }
    if word == b"need".as_slice() {
        let future = future_of(alloc, future)?;
        return need(alloc, future, name_of(alloc, first)?, place_of(second));
    }
    Ok(None)
}

fn edge(
    alloc: Global,
    future: Option<FutureName>,
    from: Option<ActivityName>,
    to: Option<ActivityName>,
) -> Result<Option<Entry>, AllocError>
    ensures { let found = edge_by (option_map future_shape future) from to in
        IfOk result (λ o. option_map entry_shape o ≡ found) }
{
    match (future, from, to) {
        (Some(future), Some(from), Some(to)) => {
            delivery(alloc, Delivery::Edge { future, from, to })
        }
        _ => Ok(None),
    }
}

fn need(
    alloc: Global,
    future: Option<FutureName>,
    to: Option<ActivityName>,
    loc: Option<Place>,
) -> Result<Option<Entry>, AllocError>
    ensures { let found = need_by (option_map future_shape future) to loc in
        IfOk result (λ o. option_map entry_shape o ≡ found) }
{
    match (future, to, loc) {
        (Some(future), Some(to), Some(loc)) => delivery(alloc, Delivery::Need { future, to, loc }),
        _ => Ok(None),
    }
}

fn delivery(alloc: Global, delivery: Delivery) -> Result<Option<Entry>, AllocError>
    ensures { IfOk result (λ o.
        option_map entry_shape o ≡ Some (Delivered (delivery_shape delivery))) }
{
    Ok(Some(Entry::Delivered(Box::new(alloc, delivery)?)))
}

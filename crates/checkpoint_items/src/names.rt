//! Texts, names, entries of logs and lines of output.

ghost use Rattle.std.specs.Prelude.{◌≡◌, IfOk, map};
ghost use Rattle.asp_model.specs.Shapes.{future_shape, line_shape, reception_shape};
ghost use Rattle.std.specs.Option.{option_map};
ghost use Rattle.checkpoint_text.specs.Reading.{future as future_in, list_of, name as name_in, option_of, output as output_in, reception as reception_in, text as text_in};
ghost use Rattle.checkpoint_items.specs.Answers.{Finds};

use crate::error::ReadError;
use crate::items::Items;
use crate::numbers::{read_byte, read_count, read_signed, read_small};
use asp_model::{ActivityName, FutureName, Label, Line, Reception, Word};
use std::alloc::{AllocError, Global};

/// A text, which is refused if it is not UTF-8.
pub fn read_text(alloc: Global, items: &mut Items<'_>) -> Result<Word, ReadError>
    ensures read { Finds (λ t. t) (text_in items.old) items.new result }
{
    let bytes = read_bytes(alloc, items)?;
    match String::from_utf8(bytes) {
        Ok(text) => Ok(Word::new(text)),
        Err(_) => Err(ReadError::NotText),
    }
}

fn read_bytes(alloc: Global, items: &mut Items<'_>) -> Result<Vec<u8>, ReadError>
    ensures read { Finds (λ v. v.items) (text_in items.old) items.new result }
{
    let count = read_count(items)?;
    let mut bytes = Vec::new(alloc);
    for _ in 0..count {
        bytes.push(read_byte(items)?)?;
    }
    Ok(bytes)
}

/// A label.
pub fn read_label(alloc: Global, items: &mut Items<'_>) -> Result<Label, ReadError>
    ensures read { Finds (λ l. l.text) (text_in items.old) items.new result }
{
    let text = read_text(alloc, items)?;
    Ok(Label { text })
}

/// Labels.
pub fn read_labels(alloc: Global, items: &mut Items<'_>) -> Result<Vec<Label>, ReadError>
    ensures read { let texts = list_of text_in in
        Finds (λ v. map (λ l. l.text) v.items) (texts items.old) items.new result }
{
    let count = read_count(items)?;
    let mut labels = Vec::new(alloc);
    for _ in 0..count {
        labels.push(read_label(alloc, items)?)?;
    }
    Ok(labels)
}

/// Words.
pub fn read_words(alloc: Global, items: &mut Items<'_>) -> Result<Vec<Word>, ReadError>
    ensures read { Finds (λ v. v.items) (list_of text_in items.old) items.new result }
{
    let count = read_count(items)?;
    let mut words = Vec::new(alloc);
    for _ in 0..count {
        words.push(read_text(alloc, items)?)?;
    }
    Ok(words)
}

/// A label, if there is one.
pub fn read_service(alloc: Global, items: &mut Items<'_>) -> Result<Option<Label>, ReadError>
    ensures read { let shape = option_map (λ l. l.text) in
        Finds shape (option_of text_in items.old) items.new result }
{
    match read_count(items)? {
        0 => Ok(None),
        1 => Ok(Some(read_label(alloc, items)?)),
        _ => Err(ReadError::Malformed),
    }
}

/// The name of an activity.
pub fn read_name(alloc: Global, items: &mut Items<'_>) -> Result<ActivityName, ReadError>
    ensures read { Finds (λ n. n) (name_in items.old) items.new result }
{
    let path = read_path(alloc, items)?;
    let name = name_of(alloc, &path)?;
    Ok(name)
}

/// The name of these numbers. One of few numbers takes no memory, nor do its copies.
pub fn name_of(alloc: Global, numbers: &[u32]) -> Result<ActivityName, AllocError>
    ensures name { IfOk result (λ n. n ≡ numbers.now) }
{
    let main = ActivityName::main(alloc)?;
    match numbers {
        [0] => Ok(main),
        [0, one] => main.created(alloc, *one),
        [0, one, two] => main.created(alloc, *one)?.created(alloc, *two),
        _ => {
            let path = Vec::from_slice(alloc, numbers)?;
            Ok(ActivityName::of_path(path))
        }
    }
}

fn read_path(alloc: Global, items: &mut Items<'_>) -> Result<Vec<u32>, ReadError>
    ensures read { Finds (λ v. v.items) (name_in items.old) items.new result }
{
    let count = read_count(items)?;
    let mut path = Vec::new(alloc);
    for _ in 0..count {
        path.push(read_small(items)?)?;
    }
    Ok(path)
}

/// The name of a future.
pub fn read_future(alloc: Global, items: &mut Items<'_>) -> Result<FutureName, ReadError>
    ensures read { Finds future_shape (future_in items.old) items.new result }
{
    let by = read_name(alloc, items)?;
    let index = read_small(items)?;
    Ok(FutureName { by, index })
}

/// The name of a future, if there is one.
pub fn read_answer(alloc: Global, items: &mut Items<'_>) -> Result<Option<FutureName>, ReadError>
    ensures read { let shape = option_map future_shape in
        Finds shape (option_of future_in items.old) items.new result }
{
    match read_count(items)? {
        0 => Ok(None),
        1 => Ok(Some(read_future(alloc, items)?)),
        _ => Err(ReadError::Malformed),
    }
}

/// An entry of a log.
pub fn read_reception(alloc: Global, items: &mut Items<'_>) -> Result<Reception, ReadError>
    ensures read { Finds reception_shape (reception_in items.old) items.new result }
{
    match read_count(items)? {
        0 => Ok(Reception::From(read_name(alloc, items)?)),
        1 => Ok(Reception::Poll),
        _ => Err(ReadError::Malformed),
    }
}

/// A line of output.
pub fn read_output(alloc: Global, items: &mut Items<'_>) -> Result<Line, ReadError>
    ensures read { Finds line_shape (output_in items.old) items.new result }
{
    match read_count(items)? {
        0 => Ok(Line::Number(read_signed(items)?)),
        1 => Ok(Line::Text(read_text(alloc, items)?)),
        _ => Err(ReadError::Malformed),
    }
}

//! Lines: a word, and the items behind it.

ghost use Rattle.std.specs.Prelude.{codes, map};
ghost use Rattle.asp_model.specs.ReportLines.{parts};
ghost use Rattle.checkpoint_text.specs.Reading.{both, future as future_in, line_read, list_of, name as name_in};
ghost use Rattle.checkpoint_items.specs.Answers.{Finds, Says};
ghost use Rattle.checkpoint_items.specs.Lines.{behind_word, home_shape, nothing_left};

use crate::error::ReadError;
use crate::items::Items;
use crate::names::{read_future, read_name};
use crate::numbers::read_count;
use asp_model::{ActivityName, FutureName};
use std::alloc::Global;

/// The items of a line behind its first word, if it is this one.
pub fn items_behind<'a>(line: &'a [u8], word: &[u8]) -> Result<Items<'a>, ReadError>
    ensures behind { Says (λ x. x) (behind_word word.now (parts 32 line.now)) result }
{
    let mut items = Items::new(line);
    let Some(first) = items.take() else {
        return Err(ReadError::Malformed);
    };
    if first != word {
        return Err(ReadError::Malformed);
    }
    Ok(items)
}

/// Refuses what is left of a line.
pub fn end_line(items: &mut Items<'_>) -> Result<(), ReadError>
    ensures over { Says (λ x. x) (nothing_left items.old) result }
{
    match items.take() {
        None => Ok(()),
        Some(_) => Err(ReadError::Malformed),
    }
}

/// The line of homes: each future with the activity that received its request.
pub fn read_homes(alloc: Global, line: &[u8]) -> Result<Vec<(FutureName, ActivityName)>, ReadError>
    ensures homes { let reader = list_of (both future_in name_in) in
        Says (λ v. map home_shape v.items) (line_read (codes "homes") reader line.now) result }
{
    let mut items = items_behind(line, b"homes".as_slice())?;
    let homes = read_all_homes(alloc, &mut items)?;
    end_line(&mut items)?;
    Ok(homes)
}

fn read_all_homes(
    alloc: Global,
    items: &mut Items<'_>,
) -> Result<Vec<(FutureName, ActivityName)>, ReadError>
    ensures read { let reader = list_of (both future_in name_in) in
        Finds (λ v. map home_shape v.items) (reader items.old) items.new result }
{
    let count = read_count(items)?;
    let mut homes = Vec::new(alloc);
    for _ in 0..count {
        homes.push(read_home(alloc, items)?)?;
    }
    Ok(homes)
}

fn read_home(alloc: Global, items: &mut Items<'_>) -> Result<(FutureName, ActivityName), ReadError>
    ensures read { Finds home_shape (both future_in name_in items.old) items.new result }
{
    let future = read_future(alloc, items)?;
    let home = read_name(alloc, items)?;
    Ok((future, home))
}

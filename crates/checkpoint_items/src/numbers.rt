//! Numbers, each one item.

ghost use Rattle.std.specs.Prelude.{◌≡◌, ◌+◌, ◌^◌, ◌<◌, ◌≤◌, IfOk, IfSome, length};
ghost use Rattle.text_lines.specs.Numbers.{number_below, only_below};
ghost use Rattle.checkpoint_text.specs.Items.{Items as ItemList};
ghost use Rattle.checkpoint_text.specs.Reading.{number_to, place as place_in, signed as signed_in, signed_by, negative_by, positive_by, small as small_in};
ghost use Rattle.checkpoint_items.specs.Answers.{Finds, found_with};

use crate::error::ReadError;
use crate::items::Items;
use asp_model::Place;
use text_lines::{count_of, place_of};

/// A number below a limit.
pub fn read_number(items: &mut Items<'_>, limit: u128) -> Result<u128, ReadError>
    ensures read { Finds (λ n. n) (number_to limit items.old) items.new result }
    ensures within { IfOk result (λ n. n < limit) }
{
    let Some(item) = items.take() else {
        return Err(ReadError::Malformed);
    };
    match below(item, limit) {
        Some(number) => Ok(number),
        None => Err(ReadError::Malformed),
    }
}

// The number that a text writes, if it is below the limit.
fn below(text: &[u8], limit: u128) -> Option<u128>
    ensures number { result ≡ number_below limit text.now }
    ensures within { IfSome result (λ n. n < limit) }
{
    kept(written(text), limit)
}

// The number that a text writes. Most have few digits.
fn written(text: &[u8]) -> Option<u128>
    ensures { result ≡ number_below (2 ^ 128) text.now }
{
    if text.len() <= 8 {
        short(text)
    } else {
        place_of(text)
    }
}

// The number that at most eight digits write.
fn short(text: &[u8]) -> Option<u128>
    requires { length text.now ≤ 8 }
    ensures { result ≡ number_below (2 ^ 128) text.now }
{
    wide(count_of(text))
}

fn wide(number: Option<u64>) -> Option<u128>
    ensures same { result ≡ number }
    ensures within { IfSome result (λ n. n < 2 ^ 128) }
{
    match number {
        Some(number) => Some(u128::from(number)),
        None => None,
    }
}

fn kept(number: Option<u128>, limit: u128) -> Option<u128>
    ensures number { result ≡ only_below limit number }
    ensures within { IfSome result (λ n. n < limit) }
{
    match number {
        Some(number) if number < limit => Some(number),
        _ => None,
    }
}

/// A byte of a text.
pub fn read_byte(items: &mut Items<'_>) -> Result<u8, ReadError>
    ensures read { Finds (λ n. n) (number_to (2 ^ 8) items.old) items.new result }
{
    let number = read_number(items, 256)?;
    Ok(number as u8)
}

/// A number of 32 bits.
pub fn read_small(items: &mut Items<'_>) -> Result<u32, ReadError>
    ensures read { Finds (λ n. n) (small_in items.old) items.new result }
{
    let number = read_number(items, 4_294_967_296)?;
    Ok(number as u32)
}

/// A number of 64 bits: a count, a length, or a kind.
pub fn read_count(items: &mut Items<'_>) -> Result<u64, ReadError>
    ensures read { Finds (λ n. n) (number_to (2 ^ 64) items.old) items.new result }
{
    let number = read_number(items, 18_446_744_073_709_551_616)?;
    Ok(number as u64)
}

/// A place, or the number of a cell.
pub fn read_place(items: &mut Items<'_>) -> Result<Place, ReadError>
    ensures read { Finds (λ n. n) (place_in items.old) items.new result }
{
    read_number(items, 18_446_744_073_709_551_616)
}

/// A number with its sign.
pub fn read_signed(items: &mut Items<'_>) -> Result<i64, ReadError>
    ensures read { Finds (λ n. n) (signed_in items.old) items.new result }
{
    let Some(item) = items.take() else {
        return Err(ReadError::Malformed);
    };
    match with_sign(item) {
        Some(number) => Ok(number),
        None => Err(ReadError::Malformed),
    }
}

// The number that an item writes with its sign. It has no `-` before a zero.
fn with_sign(text: &[u8]) -> Option<i64>
    ensures { (ws : ItemList) → signed_by ws text.now ≡ found_with ws result }
{
    match text {
        [] => None,
        [b'-', digits @ ..] => negative(digits),
        _ => positive(text),
    }
}

fn negative(digits: &[u8]) -> Option<i64>
    ensures { (ws : ItemList) →
        negative_by ws (number_below (2 ^ 63 + 1) digits.now) ≡ found_with ws result }
{
    let number = below(digits, 9_223_372_036_854_775_809)?;
    if number == 0 {
        return None;
    }
    let before = (number - 1) as i64;
    Some(-1 - before)
}

fn positive(digits: &[u8]) -> Option<i64>
    ensures { (ws : ItemList) →
        positive_by ws (number_below (2 ^ 63) digits.now) ≡ found_with ws result }
{
    let number = below(digits, 9_223_372_036_854_775_808)?;
    Some(number as i64)
}

//! Names of activities and of futures.

ghost use Rattle.std.specs.Prelude.{◌≡◌, map, IfOk};
ghost use Rattle.std.specs.Option.{option_map};
ghost use Rattle.asp_model.specs.ReportLines.{name_of as name_in, name_of_parts, under_main, all_found, asked_under, index_of as index_in, future_of as future_in, future_of_parts, is_found};
ghost use Rattle.asp_model.specs.Shapes.{future_shape};

use crate::numbers::index_of;
use crate::parts::cut;
use asp_model::{ActivityName, FutureName};
use std::alloc::{AllocError, Global};

/// The name that a text is, where it is one.
pub fn name_of(alloc: Global, text: &[u8]) -> Result<Option<ActivityName>, AllocError>
    ensures name { IfOk result (λ o. o ≡ name_in text.now) }
{
    let parts = cut(alloc, b'.', text)?;
    name_in_parts(alloc, &parts)
}

fn name_in_parts(alloc: Global, parts: &[&[u8]]) -> Result<Option<ActivityName>, AllocError>
    ensures { IfOk result (λ o. o ≡ name_of_parts (map (λ p. p.now) parts.now)) }
{
    if parts.is_empty() || parts[0] != b"0".as_slice() {
        return Ok(None);
    }
    name_under_main(alloc, &parts[1..])
}

// The name of the activity that these creations lead to. One of few numbers is made without
// memory; with many, a name for each beginning would take too long.
fn name_under_main(alloc: Global, parts: &[&[u8]]) -> Result<Option<ActivityName>, AllocError>
    ensures { IfOk result (λ o. o ≡ under_main (all_found index_in (map (λ p. p.now) parts.now))) }
{
    if parts.len() < 4 {
        short_under_main(alloc, parts)
    } else {
        long_under_main(alloc, parts)
    }
}

fn short_under_main(alloc: Global, parts: &[&[u8]]) -> Result<Option<ActivityName>, AllocError>
    ensures { IfOk result (λ o. o ≡ under_main (all_found index_in (map (λ p. p.now) parts.now))) }
{
    let mut name = ActivityName::main(alloc)?;
    for part in parts {
        match index_of(part) {
            Some(number) => name = name.created(alloc, number)?,
            None => return Ok(None),
        }
    }
    Ok(Some(name))
}

fn long_under_main(alloc: Global, parts: &[&[u8]]) -> Result<Option<ActivityName>, AllocError>
    ensures { IfOk result (λ o. o ≡ under_main (all_found index_in (map (λ p. p.now) parts.now))) }
{
    let mut path = Vec::new(alloc);
    path.push(0)?;
    for part in parts {
        match index_of(part) {
            Some(number) => path.push(number)?,
            None => return Ok(None),
        }
    }
    Ok(Some(ActivityName::of_path(path)))
}

/// Whether a text is the name of a future.
pub fn is_future(alloc: Global, text: &[u8]) -> Result<bool, AllocError>
    ensures future { IfOk result (λ b. b ≡ is_found (future_in text.now)) }
{
    Ok(future_of(alloc, text)?.is_some())
}

/// The future whose name a text is, where it is one.
pub fn future_of(alloc: Global, text: &[u8]) -> Result<Option<FutureName>, AllocError>
    ensures future { IfOk result (λ o. option_map future_shape o ≡ future_in text.now) }
{
    let parts = cut(alloc, b'#', text)?;
    future_in_parts(alloc, &parts)
}

fn future_in_parts(alloc: Global, parts: &[&[u8]]) -> Result<Option<FutureName>, AllocError>
    ensures { let found = future_of_parts (map (λ p. p.now) parts.now) in
        IfOk result (λ o. option_map future_shape o ≡ found) }
{
    match parts {
        [name, index] => Ok(future_under(name_of(alloc, name)?, index_of(index))),
        _ => Ok(None),
    }
}

fn future_under(by: Option<ActivityName>, index: Option<u32>) -> Option<FutureName>
    ensures { option_map future_shape result ≡ asked_under by index }
{
    match (by, index) {
        (Some(by), Some(index)) => Some(FutureName { by, index }),
        _ => None,
    }
}

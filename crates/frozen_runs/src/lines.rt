//! The lines of futures: their homes, and their values.
#![tactic(auto, using(checkpoint_text::proofs::WritingLemmas::writing))]

ghost use Rattle.std.specs.Prelude.{◌≡◌, IfOk, OnOk, codes, map, string_bytes};
ghost use Rattle.asp_model.specs.Shapes.{future_shape};
ghost use Rattle.checkpoint_text.specs.Items.{future_items, list_items, name_items, pair_items, parcel_items};
ghost use Rattle.checkpoint_text.specs.Lines.{line_of};
ghost use Rattle.checkpoint_text.specs.Writing.{Adds};
ghost use Rattle.future_table.specs.Values.{values_of};
ghost use Rattle.frozen_runs.specs.Pieces.{home_items, value_items};

use crate::parcels::put_parcel;
use asp_model::{ActivityName, FutureName};
use checkpoint_text::{put_future, put_name, put_number};
use code_reading::DecodeError;
use code_table::Parcel;
use future_table::FutureTable;
use std::alloc::{AllocError, Global};
use std::collections::BTreeMap;

/// The line of the futures with their homes.
pub fn homes_line(alloc: Global, homes: &[(FutureName, ActivityName)]) -> Result<String, AllocError>
    ensures line { let shapes = map (λ h. (future_shape h.0, h.1)) homes.now in
        let items = list_items (pair_items future_items name_items) shapes in
        IfOk result (λ s. string_bytes s ≡ line_of (codes "homes") items) }
{
    let mut text = String::from_str(alloc, "homes")?;
    put_homes(&mut text, homes)?;
    Ok(text)
}

fn put_homes(text: &mut String, homes: &[(FutureName, ActivityName)]) -> Result<(), AllocError>
    ensures adds { OnOk result (Adds text.old (list_items home_items homes.now) text.new) }
{
    put_number(text, homes.len() as u64)?;
    for (future, home) in homes {
        put_future(text, future)?;
        put_name(text, home)?;
    }
    Ok(())
}

/// The line of the futures that have values.
pub fn values_line(alloc: Global, futures: &FutureTable) -> Result<String, DecodeError>
    ensures line { let values = values_of futures.now in
        let items = list_items (pair_items future_items parcel_items) values in
        IfOk result (λ s. string_bytes s ≡ line_of (codes "filled") items) }
{
    let entries = futures.entries()?;
    let mut text = String::from_str(alloc, "filled")?;
    put_values(alloc, &mut text, &entries)?;
    Ok(text)
}

fn put_values(
    alloc: Global,
    text: &mut String,
    values: &BTreeMap<FutureName, &Parcel>,
) -> Result<(), DecodeError>
    ensures adds { let items = list_items value_items values.now.entries in
        OnOk result (Adds text.old items text.new) }
{
    put_number(text, values.len() as u64)?;
    for (future, value) in values {
        put_future(text, future)?;
        put_parcel(alloc, text, value)?;
    }
    Ok(())
}

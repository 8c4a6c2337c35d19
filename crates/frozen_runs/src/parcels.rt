//! Parcels and requests.
#![tactic(auto, using(checkpoint_text::proofs::WritingLemmas::writing))]

ghost use Rattle.std.specs.Prelude.{OnOk};
ghost use Rattle.checkpoint_text.specs.Items.{parcel_items, request_items};
ghost use Rattle.checkpoint_text.specs.Writing.{Adds};
ghost use Rattle.code_table.specs.Shapes.{parcel_shape};
ghost use Rattle.request_queue.specs.Requests.{request_shape};

use crate::cells::{put_cells, put_places};
use checkpoint_text::{put_future, put_name, put_text};
use code_reading::DecodeError;
use code_table::Parcel;
use request_queue::Request;
use std::alloc::Global;

/// Writes a parcel.
pub fn put_parcel(alloc: Global, text: &mut String, parcel: &Parcel) -> Result<(), DecodeError>
    ensures adds { OnOk result (Adds text.old (parcel_items (parcel_shape parcel.now)) text.new) }
{
    put_cells(alloc, text, &parcel.code, &parcel.cells)?;
    put_places(text, parcel.roots.as_slice())?;
    Ok(())
}

/// Writes a request.
pub fn put_request(alloc: Global, text: &mut String, request: &Request) -> Result<(), DecodeError>
    ensures adds { let items = request_items (request_shape request.now) in
        OnOk result (Adds text.old items text.new) }
{
    put_text(text, request.label.as_label().text.as_str())?;
    put_name(text, &request.sender)?;
    put_future(text, &request.future.name)?;
    put_parcel(alloc, text, &request.arguments)
}

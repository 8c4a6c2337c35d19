//! A parcel's cells in a store.

ghost use Rattle.std.specs.Prelude.{◌≡◌, ◌<◌, ◌≤◌, ◌^◌, ◌++◌, [], IfOk, OnErr, OnOk, drop, length, map};
ghost use Rattle.std.specs.Arc.{arc_value};
ghost use Rattle.asp_model.specs.Parcel.{
  unpack as unpacked_in,
  unpack_at as unpacked_at,
  unpacked_roots,
};
ghost use Rattle.code_table.specs.Cells.{moved_coded, with_coded_at};
ghost use Rattle.code_table.specs.Shapes.{parcel_shape, store_of};
ghost use Rattle.deep_copy.specs.Copied.{IsClosedWith, KeepsFit};
ghost use Rattle.code_table.specs.Moves.{move_of, shift_of};
ghost use Rattle.law_steps.specs.Closed.{IsClosedParcel, IsClosedValue};

use crate::copied::{code_is_sound, moved_roots};
use crate::packing::ROOM;
use code_table::{Cells, Code, Moves, Parcel, Place, Roots, Shift};
use object_store::Store;
use std::alloc::{AllocError, Global};
use std::sync::Arc;

/// The code of a parcel, and a store of its cells: what is unpacked with no cells before.
pub fn unpack_alone(alloc: Global, parcel: Parcel) -> Result<(Arc<Code>, Store), AllocError>
    ensures code { IfOk result (λ r. arc_value r.0 ≡ arc_value parcel.code) }
    ensures cells { let after = unpacked_in [] (parcel_shape parcel) in
        IfOk result (λ r. store_of (arc_value parcel.code) r.1.cells ≡ after) }
{
    code_is_sound(&parcel.code);
    let columns = parcel.cells.into_columns(alloc, ROOM)?;
    let store = Store::of(alloc, columns)?;
    Ok((parcel.code, store))
}

/// Appends a parcel's cells, and answers where its roots then stand. One root takes no memory.
pub fn unpack(alloc: Global, store: &mut Store, parcel: Parcel) -> Result<Roots, AllocError>
    requires closed { IsClosedParcel (parcel_shape parcel) }
    ensures cells { let code = arc_value parcel.code in
        let after = unpacked_in (store_of code store.old.cells) (parcel_shape parcel) in
        OnOk result (store_of code store.new.cells ≡ after) }
    ensures roots { let s = store_of (arc_value parcel.code) store.old.cells in
        IfOk result (λ places. places.items ≡ unpacked_roots s (parcel_shape parcel)) }
    ensures err { OnErr result (store.new.cells ≡ store.old.cells) }
    ensures closed { let closed = IsClosedWith parcel in
        OnOk result (closed store.old.cells → closed store.new.cells) }
    ensures fits { OnOk result (KeepsFit parcel store.old.cells store.new.cells) }
{
    code_is_sound(&parcel.code);
    let shift = Shift::Up(store.len());
    let roots = moved_roots(alloc, &Moves::By(shift), parcel.roots.as_slice())?;
    append(store, shift, &parcel.cells, 0)?;
    Ok(roots)
}

/// Puts the cell of a parcel's root at a place, and appends the others.
pub fn unpack_at(
    _alloc: Global,
    store: &mut Store,
    loc: Place,
    parcel: &Parcel,
) -> Result<(), AllocError>
    requires value { IsClosedValue (parcel_shape parcel.now) }
    requires within { loc < length store.old.cells }
    ensures cells { let code = arc_value parcel.now.code in
        let after = unpacked_at (store_of code store.old.cells) loc (parcel_shape parcel.now) in
        OnOk result (store_of code store.new.cells ≡ after) }
    ensures err { OnErr result (store.new.cells ≡ store.old.cells) }
    ensures closed { let closed = IsClosedWith parcel.now in
        OnOk result (closed store.old.cells → closed store.new.cells) }
    ensures fits { OnOk result (KeepsFit parcel.now store.old.cells store.new.cells) }
{
    code_is_sound(&parcel.code);
    let shift = Shift::RootTo {
        root: loc,
        size: store.len(),
    };
    graft(store, loc, shift, &parcel.cells)?;
    Ok(())
}

// Puts the first of the cells at a place and appends the others, each with its places moved.
fn graft(store: &mut Store, loc: Place, shift: Shift, cells: &Cells) -> Result<(), AllocError>
    requires within { loc < length store.old.cells }
    requires some { 0 < length cells.now.items }
    ensures cells { let copied = map (moved_coded (shift_of shift)) cells.now.items in
        OnOk result (store.new.cells ≡ with_coded_at store.old.cells loc copied) }
    ensures fits { OnOk result (length store.new.cells < 2 ^ 64) }
    ensures err { OnErr result (store.new.cells ≡ store.old.cells) }
{
    let before = store.len();
    append(store, shift, cells, 1)?;
    if let Err(refused) = store.put_moved(loc, cells.view(0), &Moves::By(shift)) {
        store.shorten_to(before);
        return Err(refused);
    }
    // Read for `fits`: the number of cells is a place.
    let _after = store.len();
    Ok(())
}

// Appends the cells from one on, each with its places moved, all or none. Many of which none is a
// future are shared, and not copied.
fn append(store: &mut Store, shift: Shift, cells: &Cells, from: usize) -> Result<(), AllocError>
    requires within { from ≤ length cells.now.items }
    ensures cells { let copied = map (moved_coded (shift_of shift)) (drop from cells.now.items) in
        OnOk result (store.new.cells ≡ store.old.cells ++ copied) }
    ensures fits { OnOk result (length store.new.cells < 2 ^ 64) }
    ensures err { OnErr result (store.new.cells ≡ store.old.cells) }
{
    match cells.plain() {
        Some(shared) if store.shares(shared.len()) => {
            store.attach(shared, from, shift)?;
            // Read for `fits`: the number of cells is a place.
            let _after = store.len();
            Ok(())
        }
        _ => append_moved(store, &Moves::By(shift), cells, from),
    }
}

fn append_moved(
    store: &mut Store,
    moves: &Moves,
    cells: &Cells,
    from: usize,
) -> Result<(), AllocError>
    ensures cells { let copied = map (moved_coded (move_of moves.now)) (drop from cells.now.items) in
        OnOk result (store.new.cells ≡ store.old.cells ++ copied) }
    ensures fits { OnOk result (length store.new.cells < 2 ^ 64) }
    ensures err { OnErr result (store.new.cells ≡ store.old.cells) }
{
    let before = store.len();
    let mut at = from;
    while at < cells.len() {
        if let Err(refused) = store.add_moved(cells.view(at), moves) {
            store.shorten_to(before);
            return Err(refused);
        }
        at += 1;
    }
    // Read for `fits`: the number of cells is a place.
    let _after = store.len();
    Ok(())
}

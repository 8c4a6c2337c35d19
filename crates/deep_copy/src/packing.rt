//! The parcel of what some places reach.

ghost use Rattle.std.specs.Prelude.{◌≡◌, ◌∷◌, [], IfOk, IfSome, length, map};
ghost use Rattle.std.specs.Arc.{arc_value};
ghost use Rattle.asp_model.specs.Parcel.{number_in, parcel_of, visit_order as order_of};
ghost use Rattle.code_table.specs.Cells.{coded};
ghost use Rattle.code_table.specs.Fits.{AllFitCode};
ghost use Rattle.code_table.specs.Shapes.{parcel_shape, store_of};
ghost use Rattle.deep_copy.specs.Copied.{copied_cell};
ghost use Rattle.deep_copy.specs.Leaves.{IsLeaf, IsLoneLeaf};
ghost use Rattle.code_table.specs.Moves.{move_of};
ghost use Rattle.code_table.specs.Places.{placed};
ghost use Rattle.law_steps.specs.Closed.{AreBelow, IsClosedParcel, IsClosedStore};
ghost use Rattle.code_table.specs.Sound.{IsSound};

use crate::copied::{code_is_sound, leaf_cell, moved_roots};
use crate::visiting::{visit_few, visit_order};
use code_table::{Cells, Code, Columns, Moves, Object, Parcel, Place, Roots, View};
use object_store::Store;
use std::alloc::{AllocError, Global};
use std::sync::Arc;

// Objects are mostly copied for a new activity, whose store keeps their cells and adds so many soon.
pub(crate) const ROOM: usize = 4;

/// The deep copy of what the roots reach, each cell once.
pub fn pack(
    alloc: Global,
    code: &Arc<Code>,
    store: &Store,
    roots: &[Place],
) -> Result<Parcel, AllocError>
    requires closed { IsClosedStore (store_of (arc_value code.now) store.now.cells) }
    requires within { AreBelow (length store.now.cells) roots.now }
    ensures parcel { let s = store_of (arc_value code.now) store.now.cells in
        IfOk result (λ p. parcel_shape p ≡ parcel_of s roots.now) }
    ensures code { IfOk result (λ p. arc_value p.code ≡ arc_value code.now) }
    ensures closed { IfOk result (λ p. IsClosedParcel (parcel_shape p)) }
    ensures fits { let fit = AllFitCode (arc_value code.now) in
        IfOk result (λ p. fit store.now.cells → fit p.cells.items) }
{
    code_is_sound(code);
    match lone_leaf(store, roots) {
        Some(cell) => {
            let parcel = pack_leaf(code, cell)?;
            Ok(parcel)
        }
        None => pack_visited(alloc, code, store, roots),
    }
}

fn pack_visited(
    alloc: Global,
    code: &Arc<Code>,
    store: &Store,
    roots: &[Place],
) -> Result<Parcel, AllocError>
    requires closed { IsClosedStore (store_of (arc_value code.now) store.now.cells) }
    requires within { AreBelow (length store.now.cells) roots.now }
    ensures parcel { let s = store_of (arc_value code.now) store.now.cells in
        IfOk result (λ p. parcel_shape p ≡ parcel_of s roots.now) }
    ensures code { IfOk result (λ p. arc_value p.code ≡ arc_value code.now) }
    ensures closed { IfOk result (λ p. IsClosedParcel (parcel_shape p)) }
    ensures fits { let fit = AllFitCode (arc_value code.now) in
        IfOk result (λ p. fit store.now.cells → fit p.cells.items) }
{
    code_is_sound(code);
    match visit_few(alloc, code, store, roots)? {
        Some(order) => numbered(alloc, code, store, roots, &Moves::ToFew(&order), &order),
        None => {
            let order = visit_order(alloc, code, store, roots)?;
            let moves = Moves::ToNumber(&order);
            numbered(alloc, code, store, roots, &moves, order.as_slice())
        }
    }
}

// The copies of these places, and where the roots go.
fn numbered(
    alloc: Global,
    code: &Arc<Code>,
    store: &Store,
    roots: &[Place],
    moves: &Moves,
    order: &[Place],
) -> Result<Parcel, AllocError>
    requires sound { IsSound (arc_value code.now) }
    requires closed { IsClosedStore (store_of (arc_value code.now) store.now.cells) }
    requires within { AreBelow (length store.now.cells) roots.now }
    requires below { AreBelow (length store.now.cells) order.now }
    requires order { let s = store_of (arc_value code.now) store.now.cells in
        order.now ≡ order_of s roots.now }
    requires moves { move_of moves.now ≡ number_in order.now }
    ensures parcel { let s = store_of (arc_value code.now) store.now.cells in
        IfOk result (λ p. parcel_shape p ≡ parcel_of s roots.now) }
    ensures code { IfOk result (λ p. arc_value p.code ≡ arc_value code.now) }
    ensures closed { IfOk result (λ p. IsClosedParcel (parcel_shape p)) }
    ensures fits { let fit = AllFitCode (arc_value code.now) in
        IfOk result (λ p. fit store.now.cells → fit p.cells.items) }
{
    let cells = Cells::of(alloc, copied_cells(alloc, store, moves, order)?)?;
    let roots = moved_roots(alloc, moves, roots)?;
    let code = Arc::try_clone(code)?;
    Ok(Parcel { code, cells, roots })
}

// The cell of the one root, where it reaches no other: the deep copy is this cell alone.
fn lone_leaf<'a>(store: &'a Store, roots: &[Place]) -> Option<View<'a>>
    requires within { AreBelow (length store.now.cells) roots.now }
    ensures leaf { IfSome result (λ c. IsLoneLeaf store.now.cells roots.now (coded c)) }
    ensures bare { IfSome result (λ c. IsLeaf (coded c)) }
{
    match roots {
        [root] => leaf(store.cell(*root)),
        _ => None,
    }
}

fn leaf(cell: View<'_>) -> Option<View<'_>>
    ensures same { IfSome result (λ c. coded c ≡ coded cell.entry) }
    ensures leaf { IfSome result (λ c. IsLeaf (coded c)) }
{
    match cell {
        View::Number(_) => Some(cell),
        View::Reference(_) => Some(cell),
        View::Future(_) => Some(cell),
        View::Object(object) => bare_object(cell, object),
        View::Group(_) => None,
    }
}

// An object that holds no places reaches nothing.
fn bare_object<'a>(cell: View<'a>, object: Object) -> Option<View<'a>>
    ensures same { IfSome result (λ c. coded c ≡ coded cell.entry) }
    ensures bare { IfSome result (λ c. placed object.entry.places ≡ []) }
{
    if object.places.is_empty() {
        Some(cell)
    } else {
        None
    }
}

fn pack_leaf(code: &Arc<Code>, cell: View) -> Result<Parcel, AllocError>
    requires leaf { IsLeaf (coded cell) }
    ensures cells { IfOk result (λ p. p.cells.items ≡ coded cell.entry ∷ []) }
    ensures roots { IfOk result (λ p. p.roots.items ≡ 0 ∷ []) }
    ensures code { IfOk result (λ p. arc_value p.code ≡ arc_value code.now) }
{
    let cell = leaf_cell(cell)?;
    let code = Arc::try_clone(code)?;
    Ok(Parcel {
        code,
        cells: Cells::one(cell),
        roots: Roots::one(0),
    })
}

fn copied_cells(
    alloc: Global,
    store: &Store,
    moves: &Moves,
    places: &[Place],
) -> Result<Columns, AllocError>
    requires within { AreBelow (length store.now.cells) places.now }
    ensures { let copies = map (copied_cell moves.now store.now.cells) places.now in
        IfOk result (λ r. r.items ≡ copies) }
{
    let mut columns = Columns::with_room(alloc, places.len().saturating_add(ROOM), 0)?;
    for place in places {
        columns.push_moved(store.cell(*place), moves)?;
    }
    Ok(columns)
}

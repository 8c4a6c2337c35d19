//! The order of a deep copy: each place at its first visit, and before what it reaches.

ghost use Rattle.std.specs.Prelude.{◌≡◌, ◌++◌, IfOk, IfSome, OnOk, length, not, reverse};
ghost use Rattle.asp_model.specs.Parcel.{has_place, visit_order as order_of};
ghost use Rattle.asp_model.specs.Store.{reached};
ghost use Rattle.code_table.specs.Shapes.{cell_shape, store_of};
ghost use Rattle.law_steps.specs.Closed.{AreBelow, IsClosedStore};

use crate::reached::{Gathered, note_reached};
use code_table::{Code, Place, View, number_in_few};
use indexmap::IndexSet;
use object_store::Store;
use std::alloc::{AllocError, Global};

/// What the roots reach, in the order of a depth-first visit, where that is no more than 8 places:
/// these take no memory of their own.
pub fn visit_few(
    alloc: Global,
    code: &Code,
    store: &Store,
    roots: &[Place],
) -> Result<Option<Gathered>, AllocError>
    requires closed { IsClosedStore (store_of code.now store.now.cells) }
    requires within { AreBelow (length store.now.cells) roots.now }
    ensures order { let s = store_of code.now store.now.cells in
        IfOk result (λ r. IfSome r (λ seen. seen.items ≡ order_of s roots.now)) }
    ensures within { let below = AreBelow (length store.now.cells) in
        IfOk result (λ r. IfSome r (λ seen. below seen.items)) }
{
    let mut seen = Gathered::new(alloc);
    let mut stack = Gathered::from_slice(alloc, roots)?;
    stack.reverse();
    while let Some(place) = stack.pop() {
        if is_new(&seen, place) {
            if seen.len() == 8 {
                return Ok(None);
            }
            seen.push(place)?;
            push_reached(&mut stack, code, store.cell(place))?;
        }
    }
    Ok(Some(seen))
}

fn is_new(seen: &[Place], place: Place) -> bool
    ensures { result ≡ not (has_place place seen.now) }
{
    number_in_few(seen, place) == seen.len()
}

/// What the roots reach, in the order of a depth-first visit.
pub fn visit_order(
    alloc: Global,
    code: &Code,
    store: &Store,
    roots: &[Place],
) -> Result<IndexSet<Place>, AllocError>
    requires closed { IsClosedStore (store_of code.now store.now.cells) }
    requires within { AreBelow (length store.now.cells) roots.now }
    ensures order { let s = store_of code.now store.now.cells in
        IfOk result (λ seen. seen.keys ≡ order_of s roots.now) }
    ensures within { IfOk result (λ seen. AreBelow (length store.now.cells) seen.keys) }
{
    let mut seen = IndexSet::new(alloc);
    let mut stack = Gathered::from_slice(alloc, roots)?;
    stack.reverse();
    while let Some(place) = stack.pop() {
        let (_, is_new) = seen.insert_full(place)?;
        if is_new {
            push_reached(&mut stack, code, store.cell(place))?;
        }
    }
    Ok(seen)
}

// The last place comes to lie lowest, so that the first is taken first.
fn push_reached(stack: &mut Gathered, code: &Code, cell: View) -> Result<(), AllocError>
    ensures { let pushed = reverse (reached (cell_shape code.now cell.entry)) in
        OnOk result (stack.new.items ≡ stack.old.items ++ pushed) }
{
    let before = stack.len();
    note_reached(stack, code, cell)?;
    stack[before..].reverse();
    Ok(())
}

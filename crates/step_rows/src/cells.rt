//! Cells and operands as they are read.

ghost use Rattle.std.specs.Prelude.{◌≡◌, ◌≤◌, ◌∷◌, [], IfNone, IfSome, length};
ghost use Rattle.code_table.specs.Cells.{cell_at, coded};

use code_table::{Place, View};
use object_store::Store;

/// The cell at a place.
#[inline(always)]
pub fn look<'a>(store: &'a Store, loc: Place) -> Option<View<'a>>
    ensures cell { IfSome result (λ c. coded c ≡ cell_at store.now.cells loc) }
    ensures none { IfNone result (length store.now.cells ≤ loc) }
{
    store.get(loc)
}

/// The one operand.
#[inline(always)]
pub fn one(operands: &[Place]) -> Option<Place>
    ensures one { IfSome result (λ i. operands.now ≡ i ∷ []) }
{
    match operands {
        [first] => Some(*first),
        _ => None,
    }
}

/// The two operands.
#[inline(always)]
pub fn two(operands: &[Place]) -> Option<(Place, Place)>
    ensures two { IfSome result (λ x. operands.now ≡ x.0 ∷ x.1 ∷ []) }
{
    match operands {
        [first, second] => Some((*first, *second)),
        _ => None,
    }
}

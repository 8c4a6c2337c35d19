//! Cells with other places. An object keeps its class, so no code is copied.

ghost use Rattle.std.specs.Prelude.{◌≡◌, IfOk, map};
ghost use Rattle.std.specs.Arc.{arc_value};
ghost use Rattle.code_table.specs.Cells.{IsBare, bare, coded};
ghost use Rattle.code_table.specs.Moves.{move_of};
ghost use Rattle.code_table.specs.Sound.{IsSound};
ghost use Rattle.deep_copy.specs.Leaves.{IsLeaf};

use code_table::{Cell, Code, Moves, Place, Roots, View};
use std::alloc::{AllocError, Global};
use std::sync::Arc;

/// Code is sound by its type. What a moved cell stands for rests on that.
pub fn code_is_sound(code: &Arc<Code>)
    ensures sound { IsSound (arc_value code.now) }
{
    let _nodes = code.nodes();
}

/// A cell that reaches no other.
pub fn leaf_cell(cell: View) -> Result<Cell, AllocError>
    requires leaf { IsLeaf (coded cell) }
    ensures bare { IfOk result IsBare }
    ensures cell { IfOk result (λ c. bare c ≡ coded cell.entry) }
{
    match cell {
        View::Number(n) => Ok(Cell::Number(n)),
        View::Object(object) => Cell::bare_object(object.class),
        View::Reference(name) => Ok(Cell::Reference(Arc::try_clone(name)?)),
        View::Future(future) => Ok(Cell::Future(Arc::try_clone(future)?)),
        View::Group(_) => unreachable!(),
    }
}

/// Each of the places moved.
fn moved_places(alloc: Global, moves: &Moves, places: &[Place]) -> Result<Vec<Place>, AllocError>
    ensures { IfOk result (λ r. r.items ≡ map (move_of moves.now) places.now) }
{
    let mut copies = Vec::with_capacity(alloc, places.len())?;
    for place in places {
        copies.push(moves.moved(*place))?;
    }
    Ok(copies)
}

/// The roots of a parcel, each moved.
pub fn moved_roots(alloc: Global, moves: &Moves, roots: &[Place]) -> Result<Roots, AllocError>
    ensures { IfOk result (λ r. r.items ≡ map (move_of moves.now) roots.now) }
{
    if let [root] = roots {
        return Ok(Roots::one(moves.moved(*root)));
    }
    let roots = moved_places(alloc, moves, roots)?;
    Ok(Roots::of(roots))
}

//! What a strict operand is seen as.

ghost use Rattle.std.specs.Prelude.{List};
ghost use Rattle.code_table.specs.declared.code.Node.{Node as NodeShape};
ghost use Rattle.code_table.specs.Shapes.{cell_shape};
ghost use Rattle.step_rows.specs.Sights.{IsSeen};

use code_table::View;

/// A number, a future, or neither.
#[derive(Clone, Copy)]
pub enum Seen {
    Number(i64),
    Future,
    Other,
}

#[inline(always)]
pub fn sight_of(cell: View) -> Seen
    ensures seen { (k : List NodeShape) → IsSeen (cell_shape k cell.entry) result }
{
    match cell {
        View::Number(n) => Seen::Number(n),
        View::Future(_) => Seen::Future,
        View::Object(_) => Seen::Other,
        View::Reference(_) => Seen::Other,
        View::Group(_) => Seen::Other,
    }
}

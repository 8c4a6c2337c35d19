//! Which future a cell holds.

ghost use Rattle.std.specs.Prelude.{◌≡◌};
ghost use Rattle.std.specs.Option.{option_map};
ghost use Rattle.asp_model.specs.Shapes.{future_shape};
ghost use Rattle.code_table.specs.Cells.{coded};
ghost use Rattle.core_edges.specs.Futures.{future_of};

use asp_model::FutureName;
use code_table::View;

/// The future that a cell holds: it goes along wherever the cell goes.
pub fn future_in(cell: View<'_>) -> Option<&FutureName>
    ensures held { option_map (λ f. future_shape f.now) result ≡ future_of (coded cell.entry) }
{
    match cell {
        View::Future(future) => Some(&future.name),
        View::Number(_) => None,
        View::Object(_) => None,
        View::Reference(_) => None,
        View::Group(_) => None,
    }
}

//! What is read of a future: the value that it has, or the future that is awaited.

ghost use Rattle.std.specs.Prelude.{◌≡◌};
ghost use Rattle.asp_model.specs.Chase.{chase as chase_of};
ghost use Rattle.asp_model.specs.Shapes.{future_shape};
ghost use Rattle.future_table.specs.Values.{values_of};
ghost use Rattle.def_paths.specs.Places.{name_by, value_by};
ghost use Rattle.run_ends.specs.Reads.{seen_value};

use asp_model::FutureName;
use code_table::Parcel;
use future_table::{Chase, FutureTable};

/// The value that a future has in the end.
pub fn value_of<'a>(futures: &'a FutureTable, future: &'a FutureName) -> Option<&'a Parcel>
    ensures value { let c = chase_of (values_of futures.now) (future_shape future.now) in
        seen_value result ≡ value_by c }
{
    match futures.chase(future) {
        Chase::Value(name) => futures.value(name),
        Chase::Unfilled(_) | Chase::Cycle(_) => None,
    }
}

/// The future that is awaited where this one has no value.
pub fn awaited<'a>(futures: &'a FutureTable, future: &'a FutureName) -> &'a FutureName
    ensures name { let c = chase_of (values_of futures.now) (future_shape future.now) in
        future_shape result.now ≡ name_by c }
{
    match futures.chase(future) {
        Chase::Value(name) | Chase::Unfilled(name) | Chase::Cycle(name) => name,
    }
}

//! Names of futures.

ghost use Rattle.std.specs.Prelude.{◌≡◌, IfOk};
ghost use Rattle.code_table.specs.Cells.{held_future};

use asp_model::{ActivityName, FutureName};
use code_table::Future;
use std::alloc::{AllocError, Global};
use std::sync::Arc;

/// The future of the request of this number that the activity sends, which is the one at `at` in the
/// table of futures.
pub fn future_named(
    alloc: Global,
    name: &ActivityName,
    number: u32,
    at: u32,
) -> Result<Arc<Future>, AllocError>
    ensures name { IfOk result
        (λ f. held_future f ≡ record { by = name.now; index = number }) }
{
    let name = FutureName {
        by: name.copy(alloc)?,
        index: number,
    };
    Ok(Arc::new(alloc, Future::new(alloc, name, at))?)
}

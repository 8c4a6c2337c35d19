//! An edge as its names are lent.

ghost use Rattle.std.specs.Prelude.{◌≡◌, IfOk};
ghost use Rattle.asp_model.specs.Shapes.{delivery_shape, future_shape};
ghost use Rattle.future_update.specs.Names.{delivery_along, edge_named};

use asp_model::{ActivityName, Delivery, FutureName};
use std::alloc::{AllocError, Global};

/// A future that one activity passed to another. The future is that of the request `index` which
/// the activity `by` sent.
#[derive(Clone, Copy)]
pub struct EdgeNames<'a> {
    pub by: &'a ActivityName,
    pub index: u32,
    pub from: &'a ActivityName,
    pub to: &'a ActivityName,
}

impl EdgeNames<'_> {
    /// The delivery along the edge. `AllocError` is the only error.
    pub fn delivery(self, alloc: Global) -> Result<Delivery, AllocError>
        ensures delivery { IfOk result
            (λ d. delivery_shape d ≡ delivery_along (edge_named self.entry)) }
    {
        Ok(Delivery::Edge {
            future: self.future(alloc)?,
            from: self.from.copy(alloc)?,
            to: self.to.copy(alloc)?,
        })
    }

    /// The name of the future. `AllocError` is the only error.
    pub fn future(self, alloc: Global) -> Result<FutureName, AllocError>
        ensures future { IfOk result (λ f. future_shape f ≡ (edge_named self.entry).future) }
    {
        Ok(FutureName {
            by: self.by.copy(alloc)?,
            index: self.index,
        })
    }
}

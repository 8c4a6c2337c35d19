//! The value of a future as a parcel, from what is shown to all who hold the future.

ghost use Rattle.std.specs.Prelude.{◌≡◌, IfOk};
ghost use Rattle.std.specs.Arc.{arc_value};
ghost use Rattle.code_table.specs.Shapes.{answer_shape, parcel_shape};
ghost use Rattle.law_steps.specs.Closed.{IsClosedValue};

use crate::copied::code_is_sound;
use code_table::{Answer, Code, Parcel, Roots};
use std::alloc::{AllocError, Global};
use std::sync::Arc;

/// The parcel of a shown value, by the code of those who share it. A lone number takes no memory.
pub fn shown_parcel(alloc: Global, code: &Arc<Code>, answer: &Answer) -> Result<Parcel, AllocError>
    ensures parcel { let shape = answer_shape (arc_value code.now) answer.now in
        IfOk result (λ p. parcel_shape p ≡ shape) }
    ensures code { IfOk result (λ p. arc_value p.code ≡ arc_value code.now) }
    ensures value { IfOk result (λ p. IsClosedValue (parcel_shape p)) }
{
    code_is_sound(code);
    // Read for `value`: what a shown value keeps.
    let _size = answer.len();
    let code = Arc::try_clone(code)?;
    let cells = answer.cells(alloc)?;
    Ok(Parcel {
        code,
        cells,
        roots: Roots::one(0),
    })
}

//! The signs on numbers of 64 bits.

ghost use Rattle.std.specs.Prelude.{◌≡◌};
ghost use Rattle.asp_model.specs.Shapes.{sign_shape};
ghost use Rattle.step_rows.specs.Numbers.{answer};

use asp_model::{Fault, Sign};

/// What a sign gives. Division cuts toward zero, and a test gives 1 or 0.
#[inline(always)]
pub fn operate(sign: Sign, x: i64, y: i64) -> Result<i64, Fault>
    ensures answer { result ≡ answer (sign_shape sign) x y }
{
    match sign {
        Sign::Add => x.checked_add(y).ok_or(Fault::Overflow),
        Sign::Subtract => x.checked_sub(y).ok_or(Fault::Overflow),
        Sign::Multiply => x.checked_mul(y).ok_or(Fault::Overflow),
        Sign::Divide => {
            if y == 0 {
                return Err(Fault::ZeroDivisor);
            }
            x.checked_div(y).ok_or(Fault::Overflow)
        }
        Sign::Remainder => {
            if y == 0 {
                return Err(Fault::ZeroDivisor);
            }
            x.checked_rem(y).ok_or(Fault::Overflow)
        }
        Sign::Less => Ok(i64::from(x < y)),
        Sign::Equal => Ok(i64::from(x == y)),
    }
}

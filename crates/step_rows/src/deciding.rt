//! What a redex comes to, where it becomes a place or does not contract.

ghost use Rattle.std.specs.Prelude.{◌≡◌, IfOk};
ghost use Rattle.asp_model.specs.Contraction.{contract};
ghost use Rattle.code_table.specs.Tables.{kind_head};
ghost use Rattle.code_table.specs.Shapes.{store_of};
ghost use Rattle.step_rows.specs.Decisions.{decided, value_redex};

use crate::decision::Decision;
use crate::groups::{member_row, size_row, wait_row};
use crate::rows::{clone_row, get_row, operate_row, print_row, put_row};
use code_table::{Code, Kind, Place};
use object_store::Store;
use std::alloc::AllocError;

/// What a redex of a row with strict operands comes to.
#[inline(always)]
pub fn decide(
    code: &Code,
    store: &Store,
    kind: &Kind,
    operands: &[Place],
) -> Result<Decision, AllocError>
    ensures decided { let s = store.now.cells in
        let r = value_redex (kind_head kind.now) operands.now in
        IfOk result (λ d. contract (store_of code.now s) r ≡ decided code.now s d) }
{
    match kind {
        Kind::Get(label) => get_row(code, store, label, operands),
        Kind::Put(label) => put_row(code, store, label, operands),
        Kind::Clone => clone_row(store, operands),
        Kind::Operate(sign) => operate_row(store, *sign, operands),
        Kind::Print => print_row(store, operands),
        Kind::Size => size_row(store, operands),
        Kind::Member => member_row(store, operands),
        Kind::WaitAll => wait_row(store, operands),
        _ => Err(AllocError),
    }
}

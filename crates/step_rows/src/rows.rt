//! What a redex of one or two strict operands comes to.

ghost use Rattle.std.specs.Prelude.{◌≡◌, ◌++◌, ◌∷◌, [], IfOk, IfSome, List, ℕ};
ghost use Rattle.asp_model.specs.Contraction.{allots, contract, operate as operate_of};
ghost use Rattle.asp_model.specs.Shapes.{sign_shape};
ghost use Rattle.asp_model.specs.Store.{cell as cell_in};
ghost use Rattle.asp_model.specs.Term.{
  Clone as CloneHead,
  Get as GetHead,
  Operate as OperateHead,
  Print as PrintHead,
  Put as PutHead,
};
ghost use Rattle.code_table.specs.declared.code.Node.{Node as NodeShape};
ghost use Rattle.code_table.specs.Cells.{CodedStore, Number as NumberCell, cell_at, coded};
ghost use Rattle.code_table.specs.Shapes.{store_of};
ghost use Rattle.step_rows.specs.Decisions.{decided, value_redex};
ghost use Rattle.step_rows.specs.Sights.{operated, printed, seen_or};
ghost use Rattle.step_rows.specs.declared.decision.Decision.TheVariants as decision;
ghost use Rattle.step_rows.specs.declared.seen.Seen.TheVariants as seen;

use crate::cells::{look, one, two};
use crate::decision::Decision;
use crate::fields::{get, put};
use crate::numbers::operate;
use crate::seen::{Seen, sight_of};
use asp_model::{Fault, Sign};
use code_table::{Code, KeyedLabel, Place, View};
use object_store::Store;
use std::alloc::AllocError;

/// An operand: its place, and its cell.
#[derive(Clone, Copy)]
pub struct Operand<'a> {
    pub at: Place,
    pub cell: View<'a>,
}

/// The one operand.
#[inline(always)]
pub fn one_operand<'a>(store: &'a Store, operands: &[Place]) -> Option<Operand<'a>>
    ensures one { IfSome result (λ x. operands.now ≡ x.at ∷ []) }
    ensures cell { IfSome result (λ x. coded x.cell ≡ cell_at store.now.cells x.at) }
{
    let Some(at) = one(operands) else {
        return None;
    };
    let Some(cell) = look(store, at) else {
        return None;
    };
    Some(Operand { at, cell })
}

/// `i.l`.
#[inline(always)]
pub fn get_row(
    code: &Code,
    store: &Store,
    label: &KeyedLabel,
    operands: &[Place],
) -> Result<Decision, AllocError>
    ensures row { let s = store.now.cells in
        let r = value_redex (GetHead label.now.label.text) operands.now in
        IfOk result (λ d. contract (store_of code.now s) r ≡ decided code.now s d) }
{
    let Some(x) = one_operand(store, operands) else {
        return Err(AllocError);
    };
    get(code, x.cell, label, x.at)
}

/// `i.l := k`.
#[inline(always)]
pub fn put_row(
    code: &Code,
    store: &Store,
    label: &KeyedLabel,
    operands: &[Place],
) -> Result<Decision, AllocError>
    ensures row { let s = store.now.cells in
        let r = value_redex (PutHead label.now.label.text) operands.now in
        IfOk result (λ d. contract (store_of code.now s) r ≡ decided code.now s d) }
{
    let Some((at, to)) = two(operands) else {
        return Err(AllocError);
    };
    let Some(cell) = look(store, at) else {
        return Err(AllocError);
    };
    put(code, cell, label, at, to)
}

fn clone_at(sight: Seen, at: Place) -> Decision
    ensures row { (k : List NodeShape) (s : CodedStore) →
        seen_or at (allots (store_of k s) (cell_in (store_of k s) at) []) sight ≡ decided k s result }
{
    match sight {
        Seen::Future => Decision::Needs(at),
        Seen::Number(_) => Decision::Copies(at),
        Seen::Other => Decision::Copies(at),
    }
}

/// `clone(i)`.
pub fn clone_row(store: &Store, operands: &[Place]) -> Result<Decision, AllocError>
    ensures row { (k : List NodeShape) → let s = store.now.cells in
        IfOk result
        (λ d. contract (store_of k s) (value_redex CloneHead operands.now) ≡ decided k s d) }
{
    let Some(x) = one_operand(store, operands) else {
        return Err(AllocError);
    };
    let sight = sight_of(x.cell);
    Ok(clone_at(sight, x.at))
}

fn print_at(sight: Seen, at: Place) -> Decision
    ensures row { (k : List NodeShape) (s : CodedStore) →
        printed (store_of k s) at sight ≡ decided k s result }
{
    match sight {
        Seen::Future => Decision::Needs(at),
        Seen::Number(number) => Decision::Prints { place: at, number },
        Seen::Other => Decision::Faults(Fault::NotNumber),
    }
}

/// `print(i)`.
pub fn print_row(store: &Store, operands: &[Place]) -> Result<Decision, AllocError>
    ensures row { (k : List NodeShape) → let s = store.now.cells in
        IfOk result
        (λ d. contract (store_of k s) (value_redex PrintHead operands.now) ≡ decided k s d) }
{
    let Some(x) = one_operand(store, operands) else {
        return Err(AllocError);
    };
    let sight = sight_of(x.cell);
    Ok(print_at(sight, x.at))
}

#[inline(always)]
fn answer_of(sign: Sign, x: i64, y: i64) -> Decision
    ensures row { (k : List NodeShape) (s : CodedStore) →
        operate_of (store_of k s) (sign_shape sign) x y ≡ decided k s result }
{
    match operate(sign, x, y) {
        Ok(number) => Decision::Number(number),
        Err(fault) => Decision::Faults(fault),
    }
}

#[inline(always)]
fn second_at(sign: Sign, x: i64, second: Seen, at: Place, other: Place) -> Decision
    ensures row { (k : List NodeShape) (s : CodedStore) →
        operated (store_of k s) (sign_shape sign) at other (seen.Number x) second
        ≡ decided k s result }
{
    match second {
        Seen::Future => Decision::Needs(other),
        Seen::Number(y) => answer_of(sign, x, y),
        Seen::Other => Decision::Faults(Fault::NotNumber),
    }
}

#[inline(always)]
pub(crate) fn operate_at(sign: Sign, first: Seen, second: Seen, at: Place, other: Place) -> Decision
    ensures row { (k : List NodeShape) (s : CodedStore) →
        operated (store_of k s) (sign_shape sign) at other first second ≡ decided k s result }
{
    match first {
        Seen::Future => Decision::Needs(at),
        Seen::Number(x) => second_at(sign, x, second, at, other),
        Seen::Other => match second {
            Seen::Future => Decision::Needs(other),
            Seen::Number(_) => Decision::Faults(Fault::NotNumber),
            Seen::Other => Decision::Faults(Fault::NotNumber),
        },
    }
}

/// A sign over two numbers.
#[inline(always)]
pub fn operate_row(store: &Store, sign: Sign, operands: &[Place]) -> Result<Decision, AllocError>
    ensures row { (k : List NodeShape) → let s = store.now.cells in
        let r = value_redex (OperateHead (sign_shape sign)) operands.now in
        IfOk result (λ d. contract (store_of k s) r ≡ decided k s d) }
{
    let Some((at, other)) = two(operands) else {
        return Err(AllocError);
    };
    let Some(cell) = look(store, at) else {
        return Err(AllocError);
    };
    let first = sight_of(cell);
    let Some(cell) = look(store, other) else {
        return Err(AllocError);
    };
    let second = sight_of(cell);
    Ok(operate_at(sign, first, second, at, other))
}

/// A sign over the number at a place and a number that stands in no cell yet, if it gives one.
#[inline(always)]
pub fn operate_next(store: &Store, sign: Sign, first: Place, second: i64) -> Option<i64>
    ensures row { (k : List NodeShape) (added : CodedStore) (other : ℕ) →
        let s = store.now.cells ++ added in
        let r = value_redex (OperateHead (sign_shape sign)) (first ∷ other ∷ []) in
        cell_at s other ≡ NumberCell second →
        IfSome result (λ n. contract (store_of k s) r ≡ decided k s (decision.Number n)) }
{
    let Some(cell) = store.near(first) else {
        return None;
    };
    let Seen::Number(x) = sight_of(cell) else {
        return None;
    };
    match answer_of(sign, x, second) {
        Decision::Number(number) => Some(number),
        _ => None,
    }
}

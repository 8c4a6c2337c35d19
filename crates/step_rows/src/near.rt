//! The rows that run most, where the store tells what their operands are at once. None leaves the
//! redex to the rows of all.

ghost use Rattle.std.specs.Prelude.{◌≡◌, ◌∷◌, [], IfSome, List};
ghost use Rattle.asp_model.specs.Contraction.{contract};
ghost use Rattle.asp_model.specs.Shapes.{sign_shape};
ghost use Rattle.asp_model.specs.Term.{Get as GetHead, Operate as OperateHead, Put as PutHead};
ghost use Rattle.code_table.specs.declared.code.Node.{Node as NodeShape};
ghost use Rattle.code_table.specs.Shapes.{store_of};
ghost use Rattle.code_table.specs.Tables.{kind_head};
ghost use Rattle.step_rows.specs.Asks.{IsTest};
ghost use Rattle.step_rows.specs.Decisions.{decided, value_redex};
ghost use Rattle.step_rows.specs.declared.asks.Test.TheVariants as test;

use crate::cells::{one, two};
use crate::decision::Decision;
use crate::fields::{get, put};
use crate::rows::operate_at;
use crate::seen::{Seen, sight_of};
use asp_model::Sign;
use code_table::{Code, KeyedLabel, Kind, Place};
use object_store::Store;

/// The access to a field of what is near at a place.
#[inline(always)]
pub fn near_get(code: &Code, store: &Store, label: &KeyedLabel, at: Place) -> Option<Decision>
    ensures row { let s = store.now.cells in
        let r = value_redex (GetHead label.now.label.text) (at ∷ []) in
        IfSome result (λ d. contract (store_of code.now s) r ≡ decided code.now s d) }
{
    let Some(cell) = store.near(at) else {
        return None;
    };
    match get(code, cell, label, at) {
        Ok(decision) => Some(decision),
        Err(_) => None,
    }
}

/// `i.l`.
#[inline(always)]
fn near_get_row(
    code: &Code,
    store: &Store,
    label: &KeyedLabel,
    operands: &[Place],
) -> Option<Decision>
    ensures row { let s = store.now.cells in
        let r = value_redex (GetHead label.now.label.text) operands.now in
        IfSome result (λ d. contract (store_of code.now s) r ≡ decided code.now s d) }
{
    let Some(at) = one(operands) else {
        return None;
    };
    near_get(code, store, label, at)
}

/// `i.l := k`.
#[inline(always)]
fn near_put_row(
    code: &Code,
    store: &Store,
    label: &KeyedLabel,
    operands: &[Place],
) -> Option<Decision>
    ensures row { let s = store.now.cells in
        let r = value_redex (PutHead label.now.label.text) operands.now in
        IfSome result (λ d. contract (store_of code.now s) r ≡ decided code.now s d) }
{
    let Some((at, to)) = two(operands) else {
        return None;
    };
    let Some(cell) = store.near(at) else {
        return None;
    };
    match put(code, cell, label, at, to) {
        Ok(decision) => Some(decision),
        Err(_) => None,
    }
}

/// A sign over the two numbers at these places, where both are near.
#[inline(always)]
pub fn near_operate(store: &Store, sign: Sign, at: Place, other: Place) -> Option<Decision>
    ensures row { (k : List NodeShape) → let s = store.now.cells in
        let r = value_redex (OperateHead (sign_shape sign)) (at ∷ other ∷ []) in
        IfSome result (λ d. contract (store_of k s) r ≡ decided k s d) }
{
    let Some(cell) = store.near(at) else {
        return None;
    };
    let first = sight_of(cell);
    let Some(cell) = store.near(other) else {
        return None;
    };
    let second = sight_of(cell);
    Some(operate_at(sign, first, second, at, other))
}

/// A sign over two numbers.
#[inline(always)]
fn near_operate_row(store: &Store, sign: Sign, operands: &[Place]) -> Option<Decision>
    ensures row { (k : List NodeShape) → let s = store.now.cells in
        let r = value_redex (OperateHead (sign_shape sign)) operands.now in
        IfSome result (λ d. contract (store_of k s) r ≡ decided k s d) }
{
    let Some((at, other)) = two(operands) else {
        return None;
    };
    near_operate(store, sign, at, other)
}

/// The number that an `if` chooses by, where it is near.
#[inline(always)]
pub fn near_test(store: &Store, operands: &[Place]) -> Option<(Place, i64)>
    ensures test { (k : List NodeShape) → IfSome result
        (λ x. IsTest k store.now.cells operands.now (test.Number x.0 x.1)) }
{
    let Some(at) = one(operands) else {
        return None;
    };
    let Some(cell) = store.near(at) else {
        return None;
    };
    match sight_of(cell) {
        Seen::Number(number) => Some((at, number)),
        _ => None,
    }
}

/// What a redex of a row that runs most comes to, where its operands are near.
#[inline(always)]
pub fn near_decide(code: &Code, store: &Store, kind: &Kind, operands: &[Place]) -> Option<Decision>
    ensures decided { let s = store.now.cells in
        let r = value_redex (kind_head kind.now) operands.now in
        IfSome result (λ d. contract (store_of code.now s) r ≡ decided code.now s d) }
{
    match kind {
        Kind::Get(label) => near_get_row(code, store, label, operands),
        Kind::Put(label) => near_put_row(code, store, label, operands),
        Kind::Operate(sign) => near_operate_row(store, *sign, operands),
        _ => None,
    }
}

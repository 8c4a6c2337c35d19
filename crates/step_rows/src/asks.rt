//! Redexes that choose a term, or that may ask something of other activities.

ghost use Rattle.std.specs.Prelude.{◌≡◌, IfOk, List, Option};
ghost use Rattle.asp_model.specs.Names.{Text};
ghost use Rattle.code_table.specs.Shapes.{cell_shape};
ghost use Rattle.code_table.specs.declared.code.Node.{Node as NodeShape};
ghost use Rattle.step_rows.specs.Asks.{IsCreation, IsCreationAt, IsTest};

use crate::decision::Decision;
use crate::rows::one_operand;
use crate::seen::{Seen, sight_of};
use asp_model::Fault;
use code_table::{Place, View};
use object_store::Store;
use std::alloc::AllocError;

/// What the condition of an `if` comes to.
#[derive(Clone, Copy)]
pub enum Test {
    /// A number at a place, which chooses.
    Number(Place, i64),
    Other(Decision),
}

/// The condition of an `if`.
#[inline(always)]
pub fn test_row(store: &Store, operands: &[Place]) -> Result<Test, AllocError>
    ensures test { (k : List NodeShape) → IfOk result (IsTest k store.now.cells operands.now) }
{
    let Some(x) = one_operand(store, operands) else {
        return Err(AllocError);
    };
    match sight_of(x.cell) {
        Seen::Number(number) => Ok(Test::Number(x.at, number)),
        Seen::Future => Ok(Test::Other(Decision::Needs(x.at))),
        Seen::Other => Ok(Test::Other(Decision::Faults(Fault::NotNumber))),
    }
}

/// What `active(i)` comes to.
#[derive(Clone, Copy)]
pub enum Creation {
    /// A new activity, whose object is this one.
    Creates(Place),
    Other(Decision),
}

fn creation_at(cell: View, at: Place) -> Creation
    ensures creation { (k : List NodeShape) (service : Option Text) →
        IsCreationAt k (cell_shape k cell.entry) at service result }
{
    match cell {
        View::Object(_) => Creation::Creates(at),
        View::Future(_) => Creation::Other(Decision::Needs(at)),
        View::Number(_) => Creation::Other(Decision::Faults(Fault::NotObject)),
        View::Reference(_) => Creation::Other(Decision::Faults(Fault::NotObject)),
        View::Group(_) => Creation::Other(Decision::Faults(Fault::NotObject)),
    }
}

/// `active(i)`, or `active(i, m)`.
pub fn active_row(store: &Store, operands: &[Place]) -> Result<Creation, AllocError>
    ensures creation { (k : List NodeShape) (service : Option Text) →
        IfOk result (IsCreation k store.now.cells operands.now service) }
{
    let Some(x) = one_operand(store, operands) else {
        return Err(AllocError);
    };
    Ok(creation_at(x.cell, x.at))
}

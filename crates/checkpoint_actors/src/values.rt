//! The values of filled futures.

ghost use Rattle.std.specs.Prelude.{◌≡◌, IfOk, None, OnOk, T, length, map};
ghost use Rattle.std.specs.Arc.{arc_value};
ghost use Rattle.std.specs.FinMap.{find, is_sorted, put};
ghost use Rattle.asp_model.specs.Names.{future_cmp};
ghost use Rattle.code_compiler.specs.Compiled.{IsTable};
ghost use Rattle.code_table.specs.Cells.{held_future};
ghost use Rattle.future_table.specs.Values.{AreOfCode, values_of};
ghost use Rattle.law_steps.specs.Linked.{Each};
ghost use Rattle.checkpoint_makes.specs.Cells.{AreProper};
ghost use Rattle.checkpoint_reading.specs.Cells.{value_shape};
ghost use Rattle.checkpoint_actors.specs.Values.{
  AreMadeValues,
  HasOneRoot,
  IsFilledBy,
  IsMadeValue,
  IsProperValue,
  value_by,
};

use asp_model::FutureName;
use checkpoint_makes::{MadeParcel, make_future, make_parcel};
use checkpoint_reading::ParcelText;
use code_table::{Code, Future, Node};
use future_table::FutureTable;
use std::alloc::{AllocError, Global};
use std::sync::Arc;

/// A future with its value, whose code still grows.
#[derive(Drop)]
pub struct MadeValue {
    pub future: Arc<Future>,
    pub value: MadeParcel,
}

fn make_value(
    alloc: Global,
    nodes: &mut Vec<Node>,
    value: (FutureName, ParcelText),
) -> Result<MadeValue, AllocError>
    requires table { IsTable nodes.old.items }
    requires proper { AreProper value.1.cells.items }
    ensures made { let v = value_shape value in
        IfOk result (λ m. IsMadeValue nodes.old.items nodes.new.items m v) }
{
    let (name, parcel) = value;
    let value = make_parcel(alloc, nodes, parcel)?;
    let future = make_future(alloc, name)?;
    Ok(MadeValue { future, value })
}

/// Makes values, in order. What is compiled comes behind the other nodes.
pub fn make_values(
    alloc: Global,
    nodes: &mut Vec<Node>,
    values: Vec<(FutureName, ParcelText)>,
) -> Result<Vec<MadeValue>, AllocError>
    requires table { IsTable nodes.old.items }
    requires proper { Each IsProperValue (map value_shape values.items) }
    ensures made { let vs = map value_shape values.items in
        IfOk result (λ v. AreMadeValues nodes.old.items nodes.new.items v.items vs) }
{
    let mut made = Vec::with_capacity(alloc, values.len())?;
    for value in values {
        made.push(make_value(alloc, nodes, value)?)?;
    }
    Ok(made)
}

fn fill(table: &mut FutureTable, code: &Arc<Code>, value: MadeValue) -> Result<(), AllocError>
    requires absent { find future_cmp (held_future value.future) (values_of table.old) ≡ None }
    requires one_root { HasOneRoot value }
    ensures filled { let k = arc_value code.now in
        OnOk result (IsFilledBy k value table.old table.new) }
{
    let MadeValue { future, value } = value;
    let value = value.with_code(code)?;
    table.fill(future, value)?;
    Ok(())
}

/// The table of these values, which come in the order of their futures.
pub fn fill_all(
    alloc: Global,
    code: &Arc<Code>,
    values: Vec<MadeValue>,
) -> Result<FutureTable, AllocError>
    requires ascend { let k = arc_value code.now in
        T (is_sorted future_cmp (map (value_by k) values.items)) }
    requires one_root { Each HasOneRoot values.items }
    ensures values { let k = arc_value code.now in
        IfOk result (λ t. values_of t ≡ map (value_by k) values.items) }
    ensures code { IfOk result (AreOfCode (arc_value code.now)) }
{
    let mut table = FutureTable::new(alloc);
    for value in values {
        fill(&mut table, code, value)?;
    }
    Ok(table)
}

//! What the definitions' steps read of a strict operand.

ghost use Rattle.wait_need.specs.Operands.{NeedsAreOfOperands};

/// A strict operand is read as it stands where its cell needs nothing, and with the told future's value
/// unpacked at its place; it lacks a value exactly where the cell awaits one, of the same future.
pub fn needs_are_of_operands()
    ensures { NeedsAreOfOperands }
{}

//! Strict operands as they are read without a change: the root of a future's value in its place.

ghost use Rattle.std.specs.Prelude.{◌≡◌};
ghost use Rattle.asp_model.specs.Store.{cell as cell_in};
ghost use Rattle.asp_model.specs.Chase.{chase};
ghost use Rattle.asp_model.specs.Shapes.{future_shape};
ghost use Rattle.code_table.specs.Shapes.{parcel_shape, store_of};
ghost use Rattle.future_table.specs.Values.{values_of};
ghost use Rattle.step_reads.specs.Passed.{ArePassed};
ghost use Rattle.step_reads.specs.Sights.{IsRead, operand_sight, seen_shape, sight, value_sight};
ghost use Rattle.step_reads.specs.declared.strict.Strict.TheVariants as strict;

use crate::members::missed_member;
use crate::seen::{Seen, read, see};
use crate::strict::Strict;
use asp_model::FutureName;
use code_table::{Code, Parcel, Place};
use future_table::{Chase, FutureTable};
use object_store::Store;

/// An operand, or the future that it awaits.
#[derive(Clone, Copy)]
pub enum Operand<'a> {
    Reads(Seen<'a>),
    Awaits(&'a FutureName),
}

/// The first and the second operand, as far as there are any, or the first future that is awaited.
#[derive(Clone, Copy)]
pub enum Operands<'a> {
    Read(Seen<'a>, Seen<'a>),
    Awaits(&'a FutureName),
}

/// A cell of a parcel.
pub fn cell_of(parcel: &Parcel, place: Place) -> Seen
    ensures cell { seen_shape result ≡ cell_in (parcel_shape parcel.now).cells place }
{
    match parcel.cells.get(place) {
        Some(cell) => see(&parcel.code, cell),
        None => Seen::Number(0),
    }
}

pub fn root_of(parcel: &Parcel) -> Seen
    ensures root { seen_shape result ≡ cell_in (parcel_shape parcel.now).cells 0 }
{
    cell_of(parcel, 0)
}

fn value_of<'a>(futures: &'a FutureTable, future: &'a FutureName) -> Operand<'a>
    ensures sight { let c = chase (values_of futures.now) (future_shape future.now) in
        operand_sight result ≡ value_sight c }
{
    match futures.chase(future) {
        Chase::Unfilled(name) => Operand::Awaits(name),
        Chase::Cycle(name) => Operand::Awaits(name),
        Chase::Value(name) => match futures.value(name) {
            Some(value) => Operand::Reads(root_of(value)),
            None => Operand::Awaits(name),
        },
    }
}

/// A cell through the futures.
pub fn through<'a>(futures: &'a FutureTable, seen: Seen<'a>) -> Operand<'a>
    ensures sight { let c = seen_shape seen.entry in
        operand_sight result ≡ sight (chase (values_of futures.now)) c }
{
    match seen {
        Seen::Future(future) => value_of(futures, future),
        Seen::Number(n) => Operand::Reads(Seen::Number(n)),
        Seen::Object(object, code) => Operand::Reads(Seen::Object(object, code)),
        Seen::Reference(name) => Operand::Reads(Seen::Reference(name)),
        Seen::Group(members) => Operand::Reads(Seen::Group(members)),
    }
}

fn read_operand<'a>(
    code: &'a Code,
    store: &'a Store,
    futures: &'a FutureTable,
    place: Place,
) -> Operand<'a>
    ensures sight { let c = cell_in (store_of code.now store.now.cells) place in
        operand_sight result ≡ sight (chase (values_of futures.now)) c }
{
    through(futures, read(code, store, place))
}

/// The strict operands, and how many members of a group have values.
#[derive(Clone, Copy)]
pub struct Sighting<'a> {
    pub operands: Operands<'a>,
    pub passed: usize,
}

/// The strict operands, or the first future among them that has no value. The first so many members
/// of a group that is waited for are known to have values.
pub fn operands_of<'a>(
    code: &'a Code,
    store: &'a Store,
    futures: &'a FutureTable,
    strict: Strict,
    from: usize,
) -> Sighting<'a>
    requires passed { let s = store_of code.now store.now.cells in
        ArePassed (chase (values_of futures.now)) s strict from }
    ensures read { let s = store_of code.now store.now.cells in
        IsRead (chase (values_of futures.now)) s strict result.operands }
    ensures passed { let s = store_of code.now store.now.cells in
        ArePassed (chase (values_of futures.now)) s strict result.passed }
{
    match strict {
        Strict::Members(place) => group_operand(code, store, futures, place, from),
        Strict::Nothing => alone(Operands::Read(Seen::Number(0), Seen::Number(0))),
        Strict::One(place) => alone(one_operand(code, store, futures, place)),
        Strict::Two(first, second) => alone(two_operands(code, store, futures, first, second)),
    }
}

/// Operands without members.
fn alone(operands: Operands) -> Sighting
    ensures operands { result.operands ≡ operands.entry }
    ensures passed { result.passed ≡ 0 }
{
    Sighting {
        operands,
        passed: 0,
    }
}

fn one_operand<'a>(
    code: &'a Code,
    store: &'a Store,
    futures: &'a FutureTable,
    place: Place,
) -> Operands<'a>
    ensures read { let s = store_of code.now store.now.cells in
        IsRead (chase (values_of futures.now)) s (strict.One place) result }
{
    match read_operand(code, store, futures, place) {
        Operand::Awaits(future) => Operands::Awaits(future),
        Operand::Reads(seen) => Operands::Read(seen, Seen::Number(0)),
    }
}

fn two_operands<'a>(
    code: &'a Code,
    store: &'a Store,
    futures: &'a FutureTable,
    first: Place,
    second: Place,
) -> Operands<'a>
    ensures read { let s = store_of code.now store.now.cells in
        IsRead (chase (values_of futures.now)) s (strict.Two first second) result }
{
    match read_operand(code, store, futures, first) {
        Operand::Awaits(future) => Operands::Awaits(future),
        Operand::Reads(seen) => match read_operand(code, store, futures, second) {
            Operand::Awaits(future) => Operands::Awaits(future),
            Operand::Reads(other) => Operands::Read(seen, other),
        },
    }
}

/// A group, or the first future that it or a member of it awaits.
fn group_operand<'a>(
    code: &'a Code,
    store: &'a Store,
    futures: &'a FutureTable,
    place: Place,
    from: usize,
) -> Sighting<'a>
    requires passed { let s = store_of code.now store.now.cells in
        ArePassed (chase (values_of futures.now)) s (strict.Members place) from }
    ensures read { let s = store_of code.now store.now.cells in
        IsRead (chase (values_of futures.now)) s (strict.Members place) result.operands }
    ensures passed { let s = store_of code.now store.now.cells in
        ArePassed (chase (values_of futures.now)) s (strict.Members place) result.passed }
{
    match read_operand(code, store, futures, place) {
        Operand::Awaits(future) => alone(Operands::Awaits(future)),
        Operand::Reads(seen) => {
            let missed = missed_member(code, store, futures, place, from);
            match missed.future {
                Some(future) => Sighting {
                    operands: Operands::Awaits(future),
                    passed: missed.passed,
                },
                None => Sighting {
                    operands: Operands::Read(seen, Seen::Number(0)),
                    passed: missed.passed,
                },
            }
        }
    }
}

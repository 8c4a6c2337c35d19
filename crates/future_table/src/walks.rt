//! Filled futures, and the components of those that were met.

ghost use Rattle.std.specs.Prelude.{◌≡◌, ◌<◌, IfOk, None, OnErr, OnOk, Some, [], length, map};
ghost use Rattle.asp_model.specs.declared.name.FutureName.{FutureName};
ghost use Rattle.std.specs.FinMap.{find, put};
ghost use Rattle.asp_model.specs.Chase.{chase as chase_of};
ghost use Rattle.asp_model.specs.Names.{future_cmp};
ghost use Rattle.asp_model.specs.Shapes.{future_shape};
ghost use Rattle.code_table.specs.Cells.{coded};
ghost use Rattle.code_table.specs.Shapes.{parcel_shape};
ghost use Rattle.std.specs.Option.{option_copied, option_map};
ghost use Rattle.future_table.specs.Components.{EndsWithin, end_told};
ghost use Rattle.future_table.specs.Links.{link_at};
ghost use Rattle.future_table.specs.Numbers.{number_of};
ghost use Rattle.future_table.specs.Values.{StayOfCode, by_name, chase_shape, lent_entries, told};
ghost use Rattle.future_table.specs.Walks.{IsFilledWith, IsGoing, IsRoot, IsUnfilled, IsWhole, NumbersStay, filled_in, future_in, names_in, values_in};

use crate::chase::Chase;
use crate::links::{End, Link, end_so, head_of, join};
use crate::numbers::Numbers;
use asp_model::FutureName;
use code_table::{Parcel, View};
use std::alloc::{AllocError, Global};
use std::collections::BTreeMap;

/// The futures that were met, by their numbers: the value of each, if it is filled, and its place in
/// a component.
#[derive(Drop)]
pub struct Walks {
    pub alloc: Global,
    pub values: Vec<Option<Parcel>>,
    pub numbers: Numbers,
    pub links: Vec<Link>,
}

/// No future.
pub fn none(alloc: Global) -> Walks
    ensures whole { IsWhole result }
    ensures values { values_in result ≡ [] }
{
    Walks {
        alloc,
        values: Vec::new(alloc),
        numbers: Numbers::new(alloc),
        links: Vec::new(alloc),
    }
}

/// Gives a future its value.
pub fn fill(walks: &mut Walks, name: FutureName, value: Parcel) -> Result<(), AllocError>
    requires whole { IsWhole walks.old }
    requires absent { find future_cmp (future_shape name) (values_in walks.old) ≡ None }
    ensures whole { IsWhole walks.new }
    ensures values { let old = values_in walks.old in OnOk result
        (values_in walks.new ≡ put future_cmp (future_shape name) (parcel_shape value) old) }
    ensures code { OnOk result (StayOfCode value (filled_in walks.old) (filled_in walks.new)) }
    ensures err { OnErr result (filled_in walks.new ≡ filled_in walks.old) }
{
    let at = enter(walks, name)?;
    match root(&value) {
        None => fill_plain(walks, value, at),
        Some(next) => {
            let next = number(walks, next)?;
            fill_going(walks, value, at, next);
        }
    }
    Ok(())
}

/// The value of a future, if it is filled.
pub fn value<'a>(walks: &'a Walks, name: &FutureName) -> Option<&'a Parcel>
    requires whole { IsWhole walks.now }
    ensures value { option_copied result ≡ find by_name name.now (filled_in walks.now) }
{
    match walks.numbers.of(name) {
        None => None,
        Some(at) => walks.values[at].as_ref(),
    }
}

/// The filled futures in ascending order, with their values.
pub fn entries(walks: &Walks) -> Result<BTreeMap<FutureName, &Parcel>, AllocError>
    requires whole { IsWhole walks.now }
    ensures entries { IfOk result (λ m. lent_entries m.entries ≡ filled_in walks.now) }
{
    let mut entries = BTreeMap::new(walks.alloc);
    let mut left = walks.values.len();
    while left > 0 {
        left -= 1;
        if let Some(value) = &walks.values[left] {
            let name = walks.numbers.name(left).copy(walks.alloc)?;
            entries.insert(name, value)?;
        }
    }
    Ok(entries)
}

/// Where the walk from a future ends.
pub fn chase<'a>(walks: &'a Walks, name: &'a FutureName) -> Chase<'a>
    requires whole { IsWhole walks.now }
    ensures { let c = chase_of (values_in walks.now) (future_shape name.now) in
        chase_shape result ≡ told c }
{
    match walks.numbers.of(name) {
        None => Chase::Unfilled(name),
        Some(at) => {
            let head = head_of(&walks.links, at);
            ending(&walks.numbers, walks.links[head])
        }
    }
}

fn ending(names: &Numbers, link: Link) -> Chase
    requires known { link.least < length names.now }
    requires within { EndsWithin (length names.now) link.end }
    ensures { chase_shape result ≡ end_told (map future_shape names.now) link.least link.end }
{
    match link.end {
        End::Value(at) => Chase::Value(names.name(at)),
        End::Unfilled(at) => Chase::Unfilled(names.name(at)),
        End::Cycle => Chase::Cycle(names.name(link.least)),
    }
}

fn root(value: &Parcel) -> Option<&FutureName>
    ensures root { IsRoot (parcel_shape value.now) (option_map (λ f. future_shape f.now) result) }
{
    match value.cells.get(0) {
        Some(cell) => future_of(cell),
        None => None,
    }
}

/// The future that a cell is.
fn future_of(cell: View<'_>) -> Option<&FutureName>
    ensures future { let future = option_map (λ f. future_shape f.now) result in
        future ≡ future_in (coded cell.entry) }
{
    match cell {
        View::Future(future) => Some(&future.name),
        View::Number(_) => None,
        View::Object(_) => None,
        View::Reference(_) => None,
        View::Group(_) => None,
    }
}

// The number of a future, which it gets here where it was not met.
fn number(walks: &mut Walks, name: &FutureName) -> Result<usize, AllocError>
    requires whole { IsWhole walks.old }
    ensures whole { IsWhole walks.new }
    ensures filled { filled_in walks.new ≡ filled_in walks.old }
    ensures number { let number = number_of (future_shape name.now) (names_in walks.new) in
        IfOk result (λ n. number ≡ Some n) }
    ensures stay { NumbersStay walks.old walks.new }
{
    match walks.numbers.of(name) {
        Some(number) => Ok(number),
        None => {
            let name = name.copy(walks.alloc)?;
            enter(walks, name)
        }
    }
}

fn enter(walks: &mut Walks, name: FutureName) -> Result<usize, AllocError>
    requires whole { IsWhole walks.old }
    ensures whole { IsWhole walks.new }
    ensures filled { filled_in walks.new ≡ filled_in walks.old }
    ensures number { let number = number_of (future_shape name) (names_in walks.new) in
        IfOk result (λ n. number ≡ Some n) }
    ensures stay { NumbersStay walks.old walks.new }
{
    walks.links.reserve(1)?;
    walks.values.reserve(1)?;
    let (number, new) = walks.numbers.enter(name)?;
    if new {
        walks.values.push_reserved(None);
        walks.links.push_reserved(Link {
            up: None,
            height: 0,
            least: number,
            end: End::Unfilled(number),
        });
    }
    Ok(number)
}

// The value's root is no future: the walks that led to the future end there.
fn fill_plain(walks: &mut Walks, value: Parcel, at: usize)
    requires whole { IsWhole walks.old }
    requires at { (f : FutureName) × IsUnfilled walks.old at f }
    requires root { IsRoot (parcel_shape value) None }
    ensures whole { IsWhole walks.new }
    ensures filled { (f : FutureName) → IsUnfilled walks.old at f → IsFilledWith walks.old walks.new f value }
{
    let head = head_of(&walks.links, at);
    walks.values[at] = Some(value);
    end_so(&mut walks.links, head, End::Value(at));
}

// The value's root is a future: the walks that led to the one go on as those of the other, or round
// a cycle that closes here.
fn fill_going(walks: &mut Walks, value: Parcel, at: usize, next: usize)
    requires whole { IsWhole walks.old }
    requires at { (f : FutureName) × IsUnfilled walks.old at f }
    requires root { IsGoing (parcel_shape value) next (names_in walks.old) }
    ensures whole { IsWhole walks.new }
    ensures filled { (f : FutureName) → IsUnfilled walks.old at f → IsFilledWith walks.old walks.new f value }
{
    let first = head_of(&walks.links, at);
    let second = head_of(&walks.links, next);
    walks.values[at] = Some(value);
    if first == second {
        end_so(&mut walks.links, first, End::Cycle);
    } else {
        // No way up is longer than the number of filled futures, so heights stay small.
        join(&walks.numbers, &mut walks.links, first, second);
    }
}

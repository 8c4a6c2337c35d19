//! Rows whose operands are groups.

ghost use Rattle.std.specs.Prelude.{◌≡◌, IfOk, List};
ghost use Rattle.asp_model.specs.Contraction.{contract, first_future, is_future, member_found, member_row};
ghost use Rattle.asp_model.specs.Names.{Text};
ghost use Rattle.asp_model.specs.Store.{
  Group as GroupCell,
  Number as NumberCell,
  Store as StoreShape,
  cell as cell_in,
};
ghost use Rattle.asp_model.specs.Term.{
  Member as MemberHead,
  Scatter as ScatterHead,
  Size as SizeHead,
  WaitAll as WaitAllHead,
};
ghost use Rattle.code_table.specs.declared.code.Node.{Node as NodeShape};
ghost use Rattle.code_table.specs.Cells.{CodedStore};
ghost use Rattle.code_table.specs.Shapes.{cell_shape, store_of};
ghost use Rattle.code_table.specs.Places.{placed};
ghost use Rattle.step_rows.specs.Decisions.{decided, value_redex};
ghost use Rattle.step_rows.specs.Groups.{
  IsScattering,
  IsSeenGroup,
  awaited,
  chosen_member,
  dealt,
  no_group,
  not_dealt,
  numbered,
  scatters,
  sized,
};

use crate::cells::{look, two};
use crate::decision::Decision;
use crate::rows::one_operand;
use crate::seen::{Seen, sight_of};
use asp_model::Fault;
use code_table::{Place, Places, View};
use object_store::Store;
use std::alloc::AllocError;

/// A group's members, a future, or neither.
#[derive(Clone, Copy)]
pub enum SeenGroup<'a> {
    Members(Places<'a>),
    Future,
    Other,
}

pub fn group_of<'a>(cell: View<'a>) -> SeenGroup<'a>
    ensures seen { (k : List NodeShape) → IsSeenGroup (cell_shape k cell.entry) result }
{
    match cell {
        View::Group(members) => SeenGroup::Members(members),
        View::Future(_) => SeenGroup::Future,
        View::Number(_) => SeenGroup::Other,
        View::Object(_) => SeenGroup::Other,
        View::Reference(_) => SeenGroup::Other,
    }
}

fn size_at(group: SeenGroup, at: Place) -> Decision
    ensures row { (k : List NodeShape) (s : CodedStore) →
        sized (store_of k s) at group.entry ≡ decided k s result }
{
    match group {
        SeenGroup::Members(members) => Decision::Number(members.len() as i64),
        SeenGroup::Future => Decision::Needs(at),
        SeenGroup::Other => Decision::Faults(Fault::NotGroup),
    }
}

/// `size(i)`.
#[inline(never)]
pub fn size_row(store: &Store, operands: &[Place]) -> Result<Decision, AllocError>
    ensures row { (k : List NodeShape) → let s = store.now.cells in
        IfOk result
        (λ d. contract (store_of k s) (value_redex SizeHead operands.now) ≡ decided k s d) }
{
    let Some(x) = one_operand(store, operands) else {
        return Err(AllocError);
    };
    let group = group_of(x.cell);
    Ok(size_at(group, x.at))
}

/// The member with a number, from 0.
fn member(members: &Places, number: i64) -> Option<Place>
    ensures member { (s : StoreShape) →
        member_row s (GroupCell (placed members.now)) (NumberCell number) ≡ member_found s result }
{
    match usize::try_from(number) {
        Ok(at) => members.get(at),
        Err(_) => None,
    }
}

/// The member of a group with a number.
fn numbered(members: &Places, number: Seen, other: Place) -> Decision
    ensures row { (k : List NodeShape) (s : CodedStore) →
        numbered (store_of k s) other (placed members.now) number ≡ decided k s result }
{
    match number {
        Seen::Number(n) => match member(members, n) {
            Some(place) => Decision::Stays(place),
            None => Decision::Faults(Fault::BadMember),
        },
        Seen::Future => Decision::Needs(other),
        Seen::Other => Decision::Faults(Fault::NotNumber),
    }
}

fn no_group(number: Seen, other: Place) -> Decision
    ensures row { (k : List NodeShape) (s : CodedStore) →
        no_group other number ≡ decided k s result }
{
    match number {
        Seen::Future => Decision::Needs(other),
        Seen::Number(_) => Decision::Faults(Fault::NotGroup),
        Seen::Other => Decision::Faults(Fault::NotGroup),
    }
}

fn member_at(group: SeenGroup, number: Seen, at: Place, other: Place) -> Decision
    ensures row { (k : List NodeShape) (s : CodedStore) →
        chosen_member (store_of k s) at other group.entry number ≡ decided k s result }
{
    match group {
        SeenGroup::Members(members) => numbered(&members, number, other),
        SeenGroup::Future => Decision::Needs(at),
        SeenGroup::Other => no_group(number, other),
    }
}

/// `member(i, k)`.
#[inline(never)]
pub fn member_row(store: &Store, operands: &[Place]) -> Result<Decision, AllocError>
    ensures row { (k : List NodeShape) → let s = store.now.cells in
        IfOk result
        (λ d. contract (store_of k s) (value_redex MemberHead operands.now) ≡ decided k s d) }
{
    let Some((at, other)) = two(operands) else {
        return Err(AllocError);
    };
    let Some(cell) = look(store, at) else {
        return Err(AllocError);
    };
    let group = group_of(cell);
    let Some(cell) = look(store, other) else {
        return Err(AllocError);
    };
    let number = sight_of(cell);
    Ok(member_at(group, number, at, other))
}

/// Whether the cell at a place is a future.
fn is_future_at(store: &Store, place: Place) -> bool
    ensures future { (k : List NodeShape) →
        result ≡ is_future (cell_in (store_of k store.now.cells) place) }
{
    let Some(cell) = look(store, place) else {
        return false;
    };
    match sight_of(cell) {
        Seen::Future => true,
        Seen::Number(_) => false,
        Seen::Other => false,
    }
}

/// The first of these places whose cell is a future.
fn first_future(store: &Store, places: &Places) -> Option<Place>
    ensures first { (k : List NodeShape) →
        result ≡ first_future (store_of k store.now.cells) (placed places.now) }
{
    for at in 0..places.len() {
        let place = places.at(at);
        if is_future_at(store, place) {
            return Some(place);
        }
    }
    None
}

fn wait_at(store: &Store, group: SeenGroup, at: Place) -> Decision
    ensures row { (k : List NodeShape) → let s = store.now.cells in
        awaited (store_of k s) at group.entry ≡ decided k s result }
{
    match group {
        SeenGroup::Members(members) => match first_future(store, &members) {
            Some(place) => Decision::Needs(place),
            None => Decision::Stays(at),
        },
        SeenGroup::Future => Decision::Needs(at),
        SeenGroup::Other => Decision::Faults(Fault::NotGroup),
    }
}

/// `waitall(i)`.
#[inline(never)]
pub fn wait_row(store: &Store, operands: &[Place]) -> Result<Decision, AllocError>
    ensures row { (k : List NodeShape) → let s = store.now.cells in
        IfOk result
        (λ d. contract (store_of k s) (value_redex WaitAllHead operands.now) ≡ decided k s d) }
{
    let Some(x) = one_operand(store, operands) else {
        return Err(AllocError);
    };
    let group = group_of(x.cell);
    Ok(wait_at(store, group, x.at))
}

/// What `scatter(i, m, k)` comes to.
#[derive(Clone, Copy)]
pub enum Scattering<'a> {
    /// A call to each of these members, with the other member beside it.
    Members(Places<'a>, Places<'a>),
    Other(Decision),
}

fn dealt<'a>(members: Places<'a>, second: SeenGroup<'a>, other: Place) -> Scattering<'a>
    ensures row { (k : List NodeShape) (s : CodedStore) (l : Text) →
        IsScattering k s l (dealt (store_of k s) l other (placed members.entry) second.entry) result }
{
    match second {
        SeenGroup::Members(others) => {
            if members.len() == others.len() {
                Scattering::Members(members, others)
            } else {
                Scattering::Other(Decision::Faults(Fault::BadMember))
            }
        }
        SeenGroup::Future => Scattering::Other(Decision::Needs(other)),
        SeenGroup::Other => Scattering::Other(Decision::Faults(Fault::NotGroup)),
    }
}

fn not_dealt(second: SeenGroup, other: Place) -> Decision
    ensures row { (k : List NodeShape) (s : CodedStore) →
        not_dealt other second.entry ≡ decided k s result }
{
    match second {
        SeenGroup::Members(_) => Decision::Faults(Fault::NotGroup),
        SeenGroup::Future => Decision::Needs(other),
        SeenGroup::Other => Decision::Faults(Fault::NotGroup),
    }
}

fn scatter_at<'a>(
    first: SeenGroup<'a>,
    second: SeenGroup<'a>,
    at: Place,
    other: Place,
) -> Scattering<'a>
    ensures row { (k : List NodeShape) (s : CodedStore) (l : Text) →
        IsScattering k s l (scatters (store_of k s) l at other first.entry second.entry) result }
{
    match first {
        SeenGroup::Members(members) => dealt(members, second, other),
        SeenGroup::Future => Scattering::Other(Decision::Needs(at)),
        SeenGroup::Other => Scattering::Other(not_dealt(second, other)),
    }
}

/// `scatter(i, m, k)`.
#[inline(never)]
pub fn scatter_row<'a>(store: &'a Store, operands: &[Place]) -> Result<Scattering<'a>, AllocError>
    ensures row { (k : List NodeShape) (l : Text) → let s = store.now.cells in
        let c = contract (store_of k s) (value_redex (ScatterHead l) operands.now) in
        IfOk result (IsScattering k s l c) }
{
    let Some((at, other)) = two(operands) else {
        return Err(AllocError);
    };
    let Some(cell) = look(store, at) else {
        return Err(AllocError);
    };
    let first = group_of(cell);
    let Some(cell) = look(store, other) else {
        return Err(AllocError);
    };
    let second = group_of(cell);
    Ok(scatter_at(first, second, at, other))
}

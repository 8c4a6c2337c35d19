//! Cells as they are read.

ghost use Rattle.std.specs.Prelude.{◌≡◌};
ghost use Rattle.asp_model.specs.Contraction.{members_of};
ghost use Rattle.asp_model.specs.Store.{cell as cell_in};
ghost use Rattle.code_table.specs.Shapes.{cell_shape, store_of};
ghost use Rattle.code_table.specs.Places.{placed};
ghost use Rattle.step_reads.specs.Sights.{seen_shape};

use asp_model::{ActivityName, FutureName};
use code_table::{Code, Object, Place, Places, View};
use object_store::Store;

/// A cell as it is read. Past the end of a store the number 0 is read.
#[derive(Clone, Copy)]
pub enum Seen<'a> {
    Number(i64),
    /// An object, and the code that has its class.
    Object(Object<'a>, &'a Code),
    Reference(&'a ActivityName),
    Future(&'a FutureName),
    /// The members, in order.
    Group(Places<'a>),
}

pub fn see<'a>(code: &'a Code, cell: View<'a>) -> Seen<'a>
    ensures cell { seen_shape result ≡ cell_shape code.now cell.entry }
{
    match cell {
        View::Number(n) => Seen::Number(n),
        View::Object(object) => Seen::Object(object, code),
        View::Reference(name) => Seen::Reference(name),
        View::Future(future) => Seen::Future(&future.name),
        View::Group(members) => Seen::Group(members),
    }
}

/// The members of a group; none of what is no group.
pub fn members_of<'a>(seen: Seen<'a>) -> Places<'a>
    ensures members { placed result ≡ members_of (seen_shape seen.entry) }
{
    match seen {
        Seen::Group(members) => members,
        Seen::Number(_) => Places::of(&[]),
        Seen::Object(_, _) => Places::of(&[]),
        Seen::Reference(_) => Places::of(&[]),
        Seen::Future(_) => Places::of(&[]),
    }
}

pub fn read<'a>(code: &'a Code, store: &'a Store, place: Place) -> Seen<'a>
    ensures cell { seen_shape result ≡ cell_in (store_of code.now store.now.cells) place }
{
    if place >= store.len() {
        return Seen::Number(0);
    }
    see(code, store.cell(place))
}

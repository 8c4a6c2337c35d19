//! Cells as they are read.

ghost use Rattle.std.specs.Prelude.{◌≡◌};
ghost use Rattle.asp_model.specs.Store.{cell as cell_in};
ghost use Rattle.code_table.specs.Shapes.{cell_shape, parcel_shape, store_of};
ghost use Rattle.def_paths.specs.StateLines.{is_compound};
ghost use Rattle.state_lines.specs.Sights.{seen_shape};

use asp_model::{ActivityName, FutureName};
use code_table::{Code, Object, Parcel, Place, Places, View};
use object_store::Store;

/// A cell as it is read. Past the end of a store or a value the number 0 is read.
#[derive(Clone, Copy)]
pub enum Seen<'a> {
    Number(i64),
    /// An object, and the code that has its class.
    Object(Object<'a>, &'a Code),
    Reference(&'a ActivityName),
    Future(&'a FutureName),
    /// The members, in order.
    Group(Places<'a>),
}

impl Seen<'_> {
    /// Whether it has something below: an object or a group.
    pub fn is_compound(self) -> bool
        ensures compound { result ≡ is_compound (seen_shape self.entry) }
    {
        matches!(self, Seen::Object(..) | Seen::Group(_))
    }
}

fn see<'a>(code: &'a Code, cell: View<'a>) -> Seen<'a>
    ensures cell { seen_shape result ≡ cell_shape code.now cell.entry }
{
    match cell {
        View::Number(n) => Seen::Number(n),
        View::Object(object) => Seen::Object(object, code),
        View::Reference(name) => Seen::Reference(name),
        View::Future(future) => Seen::Future(&future.name),
        View::Group(members) => Seen::Group(members),
    }
}

/// A cell of a store.
pub fn in_store<'a>(code: &'a Code, store: &'a Store, place: Place) -> Seen<'a>
    ensures cell { seen_shape result ≡ cell_in (store_of code.now store.now.cells) place }
{
    if place >= store.len() {
        return Seen::Number(0);
    }
    see(code, store.cell(place))
}

/// A cell of a value.
pub fn in_value(value: &Parcel, place: Place) -> Seen<'_>
    ensures cell { seen_shape result ≡ cell_in (parcel_shape value.now).cells place }
{
    match value.cells.get(place) {
        Some(cell) => see(&value.code, cell),
        None => Seen::Number(0),
    }
}

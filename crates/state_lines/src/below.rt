//! What is below a place: the fields of an object, the members of a group. Each is due behind the
//! others, the first one last.

ghost use Rattle.std.specs.Prelude.{◌≤◌, ◌∷◌, [], OnOk, map};
ghost use Rattle.code_table.specs.Tables.{text_of};
ghost use Rattle.state_lines.specs.Below.{
  Pushes,
  StaySpots,
  cell_below,
  fields_below,
  members_below,
  place_in,
};
ghost use Rattle.state_lines.specs.Sights.{seen_shape};
ghost use Rattle.run_ends.specs.Spots.{IsNumbered, size_of};

use crate::seen::Seen;
use crate::texts::{field_path, member_path};
use asp_model::{Label, Word};
use code_table::Place;
use run_ends::{Entered, Spot};
use std::alloc::{AllocError, Global};

/// A place that is still to be shown, down to a depth below it.
#[derive(Drop)]
pub struct Due {
    pub path: Word,
    pub spot: Spot,
    pub depth: u32,
}

/// A place whose children are due: its path, where they stand, and the depth below them.
#[derive(Clone, Copy)]
pub struct Parent<'p, 'a> {
    pub entered: &'p Entered<'a>,
    pub home: usize,
    pub path: &'p Word,
    pub depth: u32,
}

/// What is below the place where this is seen.
pub fn push_below(
    alloc: Global,
    due: &mut Vec<Due>,
    parent: Parent,
    seen: Seen,
) -> Result<(), AllocError>
    requires numbered { IsNumbered parent.entered.now }
    requires within { parent.home ≤ size_of parent.entered.now }
    ensures pending { OnOk result (Pushes parent.entry due.old.items due.new.items
        (cell_below parent.entry.path.now (place_in parent.entry) (seen_shape seen.entry))) }
    ensures spots { OnOk result (StaySpots parent.entry due.old.items due.new.items) }
{
    match seen {
        Seen::Object(object, code) => match code.class(object.class) {
            Some(class) => {
                let places = object.places.listed(alloc)?;
                push_fields(alloc, due, parent, &class.fields, &places)
            }
            None => Ok(()),
        },
        Seen::Group(members) => push_members(alloc, due, parent, &members.listed(alloc)?),
        Seen::Number(_) | Seen::Reference(_) | Seen::Future(_) => Ok(()),
    }
}

fn push_fields(
    alloc: Global,
    due: &mut Vec<Due>,
    parent: Parent,
    labels: &[Label],
    places: &[Place],
) -> Result<(), AllocError>
    requires numbered { IsNumbered parent.entered.now }
    requires within { parent.home ≤ size_of parent.entered.now }
    ensures pending { OnOk result (Pushes parent.entry due.old.items due.new.items
        (fields_below parent.entry.path.now (place_in parent.entry) (map text_of labels.now) places.now)) }
    ensures spots { OnOk result (StaySpots parent.entry due.old.items due.new.items) }
{
    let mut left = labels.len().min(places.len());
    while left > 0 {
        left -= 1;
        let path = field_path(alloc, parent.path, &labels[left])?;
        push_child(due, parent, path, places[left])?;
    }
    Ok(())
}

fn push_members(
    alloc: Global,
    due: &mut Vec<Due>,
    parent: Parent,
    members: &[Place],
) -> Result<(), AllocError>
    requires numbered { IsNumbered parent.entered.now }
    requires within { parent.home ≤ size_of parent.entered.now }
    ensures pending { OnOk result (Pushes parent.entry due.old.items due.new.items
        (members_below parent.entry.path.now (place_in parent.entry) 0 members.now)) }
    ensures spots { OnOk result (StaySpots parent.entry due.old.items due.new.items) }
{
    let mut left = members.len();
    while left > 0 {
        left -= 1;
        let path = member_path(alloc, parent.path, left)?;
        push_child(due, parent, path, members[left])?;
    }
    Ok(())
}

fn push_child(due: &mut Vec<Due>, parent: Parent, path: Word, cell: Place) -> Result<(), AllocError>
    requires numbered { IsNumbered parent.entered.now }
    requires within { parent.home ≤ size_of parent.entered.now }
    ensures pending { OnOk result (Pushes parent.entry due.old.items due.new.items
        ((path, place_in parent.entry cell) ∷ [])) }
    ensures spots { OnOk result (StaySpots parent.entry due.old.items due.new.items) }
{
    let spot = parent.entered.spot(parent.home, cell);
    let depth = parent.depth;
    due.push(Due { path, spot, depth })?;
    Ok(())
}

//! A call on a group expands to a group of calls, one to each member, in the order of the members.

ghost use Rattle.std.specs.Prelude.{◌≡◌, ◌<◌, ◌∷◌, [], IfOk, length, map, slice_index_or};
ghost use Rattle.std.specs.Option.{option_map};
ghost use Rattle.asp_model.specs.Contraction.{broadcast as calls_to_each, scattered};
ghost use Rattle.asp_model.specs.Term.{Group, locs_then, node, none, trees};
ghost use Rattle.asp_model.specs.Shapes.{tree_of};
ghost use Rattle.typed_groups.specs.Calls.{call_to, member_of};

use asp_model::{Label, Mark, Place, Term};
use std::alloc::{AllocError, Global};

/// A call to each member, with the same arguments.
pub fn broadcast(
    alloc: Global,
    members: &[Place],
    label: &Label,
    arguments: &[Place],
) -> Result<Term, AllocError>
    ensures expansion { let calls = calls_to_each label.now.text members.now arguments.now in
        IfOk result (λ t. tree_of t ≡ node Group calls) }
{
    let mut calls = Vec::new(alloc);
    for member in members {
        calls.push(call(alloc, *member, label, arguments)?)?;
    }
    Ok(Term::Group(calls, Mark::blank(alloc)))
}

/// A call to each member, with an argument of its own; none where there are more of the one than of
/// the other.
pub fn scatter(
    alloc: Global,
    members: &[Place],
    label: &Label,
    others: &[Place],
) -> Result<Option<Term>, AllocError>
    ensures expansion { let calls = scattered label.now.text members.now others.now in
        IfOk result (λ t. option_map tree_of t ≡ option_map (node Group) calls) }
{
    if members.len() != others.len() {
        return Ok(None);
    }
    Ok(Some(paired(alloc, members, label, others)?))
}

fn paired(
    alloc: Global,
    members: &[Place],
    label: &Label,
    others: &[Place],
) -> Result<Term, AllocError>
    requires same_size { length members.now ≡ length others.now }
    ensures { let calls = scattered label.now.text members.now others.now in
        IfOk result (λ t. option_map (node Group) calls ≡ Some (tree_of t)) }
{
    let mut calls = Vec::new(alloc);
    for at in 0..members.len() {
        calls.push(call(alloc, members[at], label, &[others[at]])?)?;
    }
    Ok(Term::Group(calls, Mark::blank(alloc)))
}

fn call(
    alloc: Global,
    member: Place,
    label: &Label,
    arguments: &[Place],
) -> Result<Term, AllocError>
    ensures { IfOk result (λ t. tree_of t ≡ call_to label.now.text member arguments.now) }
{
    let receiver = Box::new(alloc, Term::Loc(member, Mark::blank(alloc)))?;
    let arguments = places(alloc, arguments)?;
    Ok(Term::Call(receiver, label.copy(alloc)?, arguments, Mark::blank(alloc)))
}

#[tactic(auto, using(crate::proofs::GroupLemmas::loc_is))]
fn places(alloc: Global, places: &[Place]) -> Result<Vec<Term>, AllocError>
    ensures { IfOk result (λ ts. trees (map tree_of ts.items) ≡ locs_then places.now none) }
{
    let mut terms = Vec::new(alloc);
    for place in places {
        terms.push(Term::Loc(*place, Mark::blank(alloc)))?;
    }
    Ok(terms)
}

/// The member of a number, from 0; none where there is no such number.
pub fn member(members: &[Place], index: i64) -> Option<Place>
    ensures member { result ≡ member_of members.now index }
{
    match usize::try_from(index) {
        Ok(place) if place < members.len() => Some(members[place]),
        _ => None,
    }
}

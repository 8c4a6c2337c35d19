//! The places that hold one future.

ghost use Rattle.std.specs.Prelude.{◌≡◌, ◌∷◌, [], IfOk, IsTrue, OnErr, OnOk};
ghost use Rattle.object_store.specs.Places.{places_of, with_place, without_place};

use code_table::Place;
use std::alloc::{AllocError, Global};
use std::collections::BTreeSet;

/// The places that hold a future: mostly one, which takes no memory, and a set beyond.
#[derive(Drop)]
pub enum Places {
    Nowhere,
    At(Place),
    Several(BTreeSet<Place>),
}

impl Places {
    /// Adds a place, if it is not there.
    pub fn insert(&mut self, alloc: Global, place: Place) -> Result<(), AllocError>
        ensures places { OnOk result (places_of self.new ≡ with_place place (places_of self.old)) }
        ensures err { OnErr result (places_of self.new ≡ places_of self.old) }
    {
        match self {
            Places::Nowhere => {
                *self = Places::At(place);
                Ok(())
            }
            Places::At(first) => {
                *self = both(alloc, *first, place)?;
                Ok(())
            }
            Places::Several(all) => {
                all.insert(place)?;
                Ok(())
            }
        }
    }

    /// Takes a place out.
    pub fn remove(&mut self, place: Place)
        ensures places { places_of self.new ≡ without_place place (places_of self.old) }
    {
        match self {
            Places::Nowhere => {}
            Places::At(first) => {
                if *first == place {
                    *self = Places::Nowhere;
                }
            }
            Places::Several(all) => {
                all.remove(&place);
            }
        }
    }

    /// Whether no place is left.
    pub fn is_empty(&self) -> bool
        ensures none { IsTrue result → places_of self.now ≡ [] }
        ensures some { places_of self.now ≡ [] → IsTrue result }
    {
        match self {
            Places::Nowhere => true,
            Places::At(_) => false,
            Places::Several(all) => all.is_empty(),
        }
    }

    /// The places, ascending.
    pub fn listed(&self, alloc: Global) -> Result<Vec<Place>, AllocError>
        ensures places { IfOk result (λ v. v.items ≡ places_of self.now) }
    {
        match self {
            Places::Nowhere => Ok(Vec::new(alloc)),
            Places::At(place) => just(alloc, *place),
            Places::Several(all) => all_of(alloc, all),
        }
    }
}

fn both(alloc: Global, first: Place, second: Place) -> Result<Places, AllocError>
    ensures places { IfOk result (λ r. places_of r ≡ with_place second (first ∷ [])) }
{
    if first == second {
        return Ok(Places::At(first));
    }
    let mut all = BTreeSet::new(alloc);
    all.insert(first)?;
    all.insert(second)?;
    Ok(Places::Several(all))
}

fn just(alloc: Global, place: Place) -> Result<Vec<Place>, AllocError>
    ensures places { IfOk result (λ v. v.items ≡ place ∷ []) }
{
    let mut all = Vec::with_capacity(alloc, 1)?;
    all.push(place)?;
    Ok(all)
}

fn all_of(alloc: Global, places: &BTreeSet<Place>) -> Result<Vec<Place>, AllocError>
    ensures places { IfOk result (λ v. v.items ≡ places.now.keys) }
{
    let mut all = Vec::new(alloc);
    for place in places {
        all.push(*place)?;
    }
    Ok(all)
}

//! The roots of a parcel.

ghost use Rattle.std.specs.Prelude.{◌≡◌, ◌∷◌, [], IfOk};

use crate::cells::Place;
use crate::columns::copy_places;
use std::alloc::{AllocError, Global};
use std::marker::Model;
use std::slice;

/// Where the numbers are.
#[derive(Drop)]
enum Held {
    One(Place),
    Listed(Vec<Place>),
}

/// The numbers of the roots of a parcel. One alone needs no memory of its own.
#[derive(Drop)]
pub struct Roots {
    held: Held,
}

impl Model for Roots {
    ghost use Rattle.code_table.specs.Roots.{RootsView, roots_view};

    ghost Value = { RootsView };

    ghost view = { λ r. roots_view r.held };
}

impl Roots {
    /// One root.
    pub fn one(root: Place) -> Roots
        ensures items { result.items ≡ root ∷ [] }
    {
        Roots {
            held: Held::One(root),
        }
    }

    /// These roots, in order.
    pub fn of(roots: Vec<Place>) -> Roots
        ensures items { result.items ≡ roots.items }
    {
        Roots {
            held: Held::Listed(roots),
        }
    }

    /// Equal roots. `AllocError` is the only error.
    pub fn copy(&self, alloc: Global) -> Result<Roots, AllocError>
        ensures items { IfOk result (λ r. r.items ≡ self.now.items) }
    {
        match &self.held {
            Held::One(root) => Ok(Roots::one(*root)),
            Held::Listed(roots) => Ok(Roots::of(copy_places(alloc, roots)?)),
        }
    }

    /// The numbers, in order.
    pub fn as_slice(&self) -> &[Place]
        ensures items { result.now ≡ self.now.items }
    {
        match &self.held {
            Held::One(root) => slice::from_ref(root),
            Held::Listed(roots) => roots.as_slice(),
        }
    }
}

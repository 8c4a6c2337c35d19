//! What passes between activities: deep copies out of a store, and values of futures into it.

ghost use Rattle.std.specs.Prelude.{◌≡◌, ◌<◌, Err, IfOk, OnErr, OnOk, alloc_error, length, true};
ghost use Rattle.std.specs.Arc.{arc_value};
ghost use Rattle.asp_model.specs.Configuration.{Activity as ActivityShape};
ghost use Rattle.asp_model.specs.Parcel.{parcel_of, unpack_at as unpacked_at};
ghost use Rattle.code_table.specs.Shapes.{parcel_shape, store_of};
ghost use Rattle.law_steps.specs.Closed.{AreBelow, IsClosedParcel, IsClosedStore, IsClosedValue};
ghost use Rattle.activity_step.specs.Activities.{StandsFor};
ghost use Rattle.activity_step.specs.Standings.{code_of};

use crate::activity::Activity;
use code_table::{Parcel, Place};
use deep_copy::unpack_at;
use std::alloc::{AllocError, Global};

impl Activity {
    /// The deep copy of what these places reach.
    pub fn pack(&self, alloc: Global, places: &[Place]) -> Result<Parcel, AllocError>
        requires closed { IsClosedStore (store_of (code_of self.now) self.now.state.store.cells) }
        requires within { AreBelow (length self.now.state.store.cells) places.now }
        ensures parcel { (a : ActivityShape) → StandsFor self.now a →
            IfOk result (λ p. parcel_shape p ≡ parcel_of a.store places.now) }
        ensures code { IfOk result (λ p. arc_value p.code ≡ code_of self.now) }
        ensures closed { IfOk result (λ p. IsClosedParcel (parcel_shape p)) }
        ensures spent { self.now.spent ≡ true → result ≡ Err alloc_error }
    {
        self.unspent()?;
        deep_copy::pack(alloc, &self.code, &self.state.store, places)
    }

    /// Puts a value at a place.
    fn put_value(&mut self, alloc: Global, place: Place, value: &Parcel) -> Result<(), AllocError>
        requires value { IsClosedValue (parcel_shape value.now) }
        requires within { place < length self.old.state.store.cells }
        requires code { arc_value value.now.code ≡ code_of self.old }
        ensures stands { (a : ActivityShape) → StandsFor self.old a →
            let filled = unpacked_at a.store place (parcel_shape value.now) in
            OnOk result (StandsFor self.new (record a { store = filled })) }
        ensures still { self.new.spent ≡ self.old.spent }
        ensures code { code_of self.new ≡ code_of self.old }
    {
        unpack_at(alloc, &mut self.state.store, place, value)
    }

    /// Puts the value of a future at a place. It takes no reduction. After `AllocError` it is spent.
    pub fn fill(&mut self, alloc: Global, place: Place, value: &Parcel) -> Result<(), AllocError>
        requires value { IsClosedValue (parcel_shape value.now) }
        requires within { place < length self.old.state.store.cells }
        requires code { arc_value value.now.code ≡ code_of self.old }
        ensures stands { (a : ActivityShape) → StandsFor self.old a →
            let filled = unpacked_at a.store place (parcel_shape value.now) in
            OnOk result (StandsFor self.new (record a { store = filled })) }
        ensures spent { self.old.spent ≡ true → result ≡ Err alloc_error }
        ensures gives_up { OnErr result (self.new.spent ≡ true) }
        ensures still { OnOk result (self.new.spent ≡ self.old.spent) }
        ensures code { code_of self.new ≡ code_of self.old }
    {
        self.unspent()?;
        let outcome = self.put_value(alloc, place, value);
        self.noted(outcome)
    }
}

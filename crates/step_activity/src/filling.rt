//! Values of futures that come.

ghost use Rattle.std.specs.Prelude.{◌≡◌, ◌<◌, List, OnOk, length};
ghost use Rattle.std.specs.Arc.{arc_value};
ghost use Rattle.asp_model.specs.Configuration as model;
ghost use Rattle.asp_model.specs.Configuration.{RequestShape};
ghost use Rattle.asp_model.specs.Parcel.{ParcelShape, unpack_at};
ghost use Rattle.asp_model.specs.Shapes.{future_shape};
ghost use Rattle.code_table.specs.Shapes.{answer_shape, parcel_shape};
ghost use Rattle.def_journals.specs.Deliveries.{holders_from, unpack_each};
ghost use Rattle.law_steps.specs.Closed.{AreBelow, IsClosedValue};
ghost use Rattle.activity_step.specs.Activities.{StandsFor};
ghost use Rattle.step_activity.specs.Actors.{IsSomebody, Stands, code_of, log_in};
ghost use Rattle.step_activity.specs.Clear.{HasClear};

use crate::actor::Actor;
use crate::held::{clear_at, holds_future};
use activity_step::Standing;
use asp_model::FutureName;
use code_table::{Answer, Parcel, Place};
use deep_copy::shown_parcel;
use std::alloc::{AllocError, Global};
use step_reads::strict_of;

impl Actor {
    /// Puts the value of a future at a place. It takes no reduction.
    pub fn fill(&mut self, alloc: Global, place: Place, value: &Parcel) -> Result<(), AllocError>
        requires value { IsClosedValue (parcel_shape value.now) }
        requires within { place < length self.old.activity.state.store.cells }
        requires code { arc_value value.now.code ≡ code_of self.old }
        ensures stands { (a : model.Activity) (rs : List RequestShape) → Stands self.old a rs →
            let filled = unpack_at a.store place (parcel_shape value.now) in
            OnOk result (Stands self.new (record a { store = filled }) rs) }
        ensures log { log_in self.new ≡ log_in self.old }
        ensures code { code_of self.new ≡ code_of self.old }
    {
        self.clear = self.clear_kept(place);
        self.activity.fill(alloc, place, value)?;
        self.clear = self.clear_now();
        Ok(())
    }

    /// Puts a value that is shown to all who hold its future at a place. It takes no reduction.
    pub fn fill_answer(
        &mut self,
        alloc: Global,
        place: Place,
        answer: &Answer,
    ) -> Result<(), AllocError>
        requires within { place < length self.old.activity.state.store.cells }
        ensures stands { (a : model.Activity) (rs : List RequestShape) → Stands self.old a rs →
            let value = answer_shape (code_of self.old) answer.now in
            let filled = unpack_at a.store place value in
            OnOk result (Stands self.new (record a { store = filled }) rs) }
        ensures log { log_in self.new ≡ log_in self.old }
        ensures code { code_of self.new ≡ code_of self.old }
    {
        let value = shown_parcel(alloc, self.code(), answer)?;
        self.fill(alloc, place, &value)
    }

    /// How many members of a group that it waits for are still known to have come, once a value has
    /// come to a place: all, where a future stood there.
    fn clear_kept(&self, place: Place) -> usize
        requires within { place < length self.now.activity.state.store.cells }
        ensures clear { (a : model.Activity) (p : ParcelShape) → StandsFor self.now.activity a →
            HasClear a self.now.clear →
            HasClear (record a { store = unpack_at a.store place p }) result }
    {
        if holds_future(self.activity.store(), place) {
            self.clear
        } else {
            0
        }
    }

    /// How many members of a group that it waits for have come before the first that has not: it
    /// looks on from those that it knows.
    fn clear_now(&self) -> usize
        ensures clear { (a : model.Activity) → StandsFor self.now.activity a →
            HasClear a self.now.clear → HasClear a result }
    {
        match self.activity.standing() {
            Ok(Standing::Redex(redex)) => {
                clear_at(self.activity.store(), strict_of(redex), self.clear)
            }
            Ok(Standing::Place(_)) => self.clear,
            Err(_) => self.clear,
        }
    }

    fn fill_all(
        &mut self,
        alloc: Global,
        places: &[Place],
        value: &Parcel,
    ) -> Result<(), AllocError>
        requires value { IsClosedValue (parcel_shape value.now) }
        requires within { AreBelow (length self.old.activity.state.store.cells) places.now }
        requires somebody { IsSomebody self.old }
        requires code { arc_value value.now.code ≡ code_of self.old }
        ensures stands { (a : model.Activity) (rs : List RequestShape) → Stands self.old a rs →
            let filled = unpack_each a.store places.now (parcel_shape value.now) in
            OnOk result (Stands self.new (record a { store = filled }) rs) }
        ensures log { log_in self.new ≡ log_in self.old }
        ensures code { code_of self.new ≡ code_of self.old }
    {
        for place in places {
            self.fill(alloc, *place, value)?;
        }
        Ok(())
    }

    /// Puts a copy of its own of the value of a future at each place that holds it. It takes no
    /// reduction.
    pub fn fill_each(
        &mut self,
        alloc: Global,
        future: &FutureName,
        value: &Parcel,
    ) -> Result<(), AllocError>
        requires value { IsClosedValue (parcel_shape value.now) }
        requires somebody { IsSomebody self.old }
        requires code { arc_value value.now.code ≡ code_of self.old }
        ensures stands { (a : model.Activity) (rs : List RequestShape) → Stands self.old a rs →
            let places = holders_from 0 (future_shape future.now) a.store in
            let filled = unpack_each a.store places (parcel_shape value.now) in
            OnOk result (Stands self.new (record a { store = filled }) rs) }
        ensures log { log_in self.new ≡ log_in self.old }
        ensures code { code_of self.new ≡ code_of self.old }
    {
        let places = self.activity.store().holders_of(future)?;
        self.fill_all(alloc, &places, value)
    }
}

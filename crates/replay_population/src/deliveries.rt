//! Deliveries of futures' values to an activity of a population.

ghost use Rattle.std.specs.Prelude.{◌≡◌, IfOk, List, OnOk, Some, is_some};
ghost use Rattle.asp_model.specs.Configuration as model;
ghost use Rattle.asp_model.specs.Configuration.{Configuration, RequestShape};
ghost use Rattle.asp_model.specs.Names.{Name};
ghost use Rattle.asp_model.specs.Shapes.{future_shape};
ghost use Rattle.def_journals.specs.Deliveries.{edge_delivered, need_delivered, value_needed, value_of};
ghost use Rattle.asp_model.specs.Chase.{chase};
ghost use Rattle.asp_model.specs.Store.{cell as cell_in};
ghost use Rattle.code_table.specs.Shapes.{cell_shape, store_of};
ghost use Rattle.code_table.specs.declared.code.Node.{Node as NodeShape};
ghost use Rattle.step_activity.specs.Stances.{IsFutureOf};
ghost use Rattle.def_journals.specs.Journals.{number_of};
ghost use Rattle.future_table.specs.Values.{AreOfCode, values_of};
ghost use Rattle.step_activity.specs.Actors.{IsSomebody, Stands, code_of, log_in};
ghost use Rattle.step_reads.specs.Values.{AreClosedValues};
ghost use Rattle.replay_population.specs.Deliveries.{IsDelivered, IsStored, store_at, store_with};
ghost use Rattle.replay_population.specs.Population.{IsClosedBySome, IsKnown, IsPopulation, KeepsPassed};

use crate::population::Population;
use asp_model::FutureName;
use code_table::{Place, View};
use future_table::{Chase, FutureTable};
use object_store::Store;
use std::alloc::{AllocError, Global};
use step_activity::Actor;

/// The value of a future comes to each place where an activity holds it. Whether it has a value.
fn fill_held(
    alloc: Global,
    actor: &mut Actor,
    futures: &FutureTable,
    future: &FutureName,
) -> Result<bool, AllocError>
    requires somebody { IsSomebody actor.old }
    requires values { AreClosedValues (values_of futures.now) }
    requires code { AreOfCode (code_of actor.old) futures.now }
    ensures stored { (a : model.Activity) (rs : List RequestShape) → Stands actor.old a rs →
        IfOk result (IsStored actor.new a rs
        (store_with (values_of futures.now) (future_shape future.now) a)) }
    ensures log { log_in actor.new ≡ log_in actor.old }
    ensures code { code_of actor.new ≡ code_of actor.old }
{
    match futures.value(future) {
        Some(value) => {
            actor.fill_each(alloc, future, value)?;
            Ok(true)
        }
        None => Ok(false),
    }
}

fn future_of(cell: View<'_>) -> Option<&FutureName>
    ensures future { (k : List NodeShape) → IsFutureOf (cell_shape k cell.entry) result }
{
    match cell {
        View::Future(future) => Some(&future.name),
        View::Number(_) => None,
        View::Object(_) => None,
        View::Reference(_) => None,
        View::Group(_) => None,
    }
}

/// The future at a place of a store, if one stands there.
fn held_at(store: &Store, place: Place) -> Option<&FutureName>
    ensures held { (k : List NodeShape) → let s = store_of k store.now.cells in
        IsFutureOf (cell_in s place) result }
{
    if place >= store.len() {
        return None;
    }
    future_of(store.cell(place))
}

/// Whether a future leads to the value of another one, or of its own.
fn leads_to(futures: &FutureTable, held: &FutureName, future: &FutureName) -> bool
    ensures leads { let end = chase (values_of futures.now) (future_shape held.now) in
        result ≡ is_some (value_of (future_shape future.now) end) }
{
    match futures.chase(held) {
        Chase::Value(name) => future == name,
        Chase::Unfilled(_) => false,
        Chase::Cycle(_) => false,
    }
}

/// Whether a place of an activity holds a future that leads to the value of this one.
fn needs(actor: &Actor, futures: &FutureTable, future: &FutureName, place: Place) -> bool
    ensures needs { (a : model.Activity) (rs : List RequestShape) → Stands actor.now a rs →
        let chases = chase (values_of futures.now) in
        result ≡ is_some (value_needed chases (future_shape future.now) (cell_in a.store place)) }
{
    match held_at(actor.store(), place) {
        Some(held) => leads_to(futures, held, future),
        None => false,
    }
}

/// The value of a future comes to a place of an activity, if a future there leads to it. Whether it
/// does.
fn fill_needed(
    alloc: Global,
    actor: &mut Actor,
    futures: &FutureTable,
    future: &FutureName,
    place: Place,
) -> Result<bool, AllocError>
    requires somebody { IsSomebody actor.old }
    requires values { AreClosedValues (values_of futures.now) }
    requires code { AreOfCode (code_of actor.old) futures.now }
    ensures stored { (a : model.Activity) (rs : List RequestShape) → Stands actor.old a rs →
        IfOk result (IsStored actor.new a rs
        (store_at (values_of futures.now) (future_shape future.now) place a)) }
    ensures log { log_in actor.new ≡ log_in actor.old }
    ensures code { code_of actor.new ≡ code_of actor.old }
{
    if !needs(actor, futures, future, place) {
        return Ok(false);
    }
    let Some(value) = futures.value(future) else {
        unreachable!()
    };
    actor.fill(alloc, place, value)?;
    Ok(true)
}

impl Population {
    /// The value of a future goes to an activity along an edge: to each place where it holds the
    /// future. Whether it goes: nothing changes where the future has no value, or nobody has the
    /// number. What was noted of members of a group says nothing then: only a run without
    /// deliveries notes them.
    pub fn deliver_edge(
        &mut self,
        alloc: Global,
        future: &FutureName,
        to: u32,
    ) -> Result<bool, AllocError>
        requires closed { IsClosedBySome self.old }
        requires known { IsKnown self.old to }
        ensures delivered { (c : Configuration) (n : Name) → IsPopulation self.old c →
            number_of n self.old.roster ≡ Some to →
            IfOk result (IsDelivered self.new c (edge_delivered c (future_shape future.now) n)) }
        ensures roster { OnOk result (self.new.roster ≡ self.old.roster) }
        ensures passed { OnOk result (KeepsPassed self.old self.new) }
    {
        let Some(mut boxed) = self.take(to) else {
            return Ok(false);
        };
        let goes = fill_held(alloc, boxed.as_mut(), &self.futures, future)?;
        self.put(to, boxed)?;
        Ok(goes)
    }

    /// The value of a future goes to a place of an activity, if the place holds a future that leads
    /// to it. Whether it goes: nothing changes where it does not.
    pub fn deliver_need(
        &mut self,
        alloc: Global,
        future: &FutureName,
        to: u32,
        place: Place,
    ) -> Result<bool, AllocError>
        requires closed { IsClosedBySome self.old }
        requires known { IsKnown self.old to }
        ensures delivered { (c : Configuration) (n : Name) → IsPopulation self.old c →
            number_of n self.old.roster ≡ Some to → let f = future_shape future.now in
            IfOk result (IsDelivered self.new c (need_delivered c f n place)) }
        ensures roster { OnOk result (self.new.roster ≡ self.old.roster) }
        ensures passed { OnOk result (KeepsPassed self.old self.new) }
    {
        let Some(mut boxed) = self.take(to) else {
            return Ok(false);
        };
        let goes = fill_needed(alloc, boxed.as_mut(), &self.futures, future, place)?;
        self.put(to, boxed)?;
        Ok(goes)
    }
}

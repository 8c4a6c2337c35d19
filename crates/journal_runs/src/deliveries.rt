//! Deliveries that are redone.

ghost use Rattle.std.specs.Prelude.{◌++◌, ◌∷◌, [], ℕ, IfOk, List};
ghost use Rattle.asp_model.specs.History.{Delivered, Edge, EntryShape, Need};
ghost use Rattle.asp_model.specs.Shapes.{delivery_shape, future_shape};
ghost use Rattle.asp_model.specs.Term.{Tree};
ghost use Rattle.def_journals.specs.Journals.{RunShape, entered};
ghost use Rattle.journal_runs.specs.Receivers.{IsPlaceOf, IsReceiver};
ghost use Rattle.journal_runs.specs.Runs.{IsRedone, IsRunOf, IsSomeRun};

use crate::lends::grant_of;
use crate::runs::JournalRun;
use asp_model::{ActivityName, Delivery, FutureName, Place};
use std::alloc::{AllocError, Global};

impl JournalRun {
    /// The number of an activity, if it is there and in.
    fn receiver(&self, to: &ActivityName) -> Option<u32>
        ensures receiver { IsReceiver self.now to.now result }
    {
        let Some(number) = self.population.roster.number(to) else {
            return None;
        };
        match grant_of(&self.grants, number) {
            Some(_) => None,
            None => Some(number),
        }
    }

    /// A place of the store of an activity, if it is there.
    fn place_of(&self, number: u32, loc: Place) -> Option<usize>
        ensures place { IsPlaceOf self.now.population number loc result }
    {
        let Some(actor) = self.population.get(number) else {
            return None;
        };
        let len = actor.store().len();
        if loc >= len as u128 {
            return None;
        }
        Some(loc as usize)
    }

    /// A value goes to an activity that is in. Whether it does.
    pub(crate) fn deliver(&mut self, alloc: Global, delivery: &Delivery) -> Result<bool, AllocError>
        requires run { IsSomeRun self.old }
        ensures delivered { (program : Tree) (budget : ℕ) (entries : List EntryShape)
            (s : RunShape) → IsRunOf self.old program budget entries s →
            let e = Delivered (delivery_shape delivery.now) in
            IfOk result (IsRedone self.new program budget (entries ++ e ∷ []) (entered e s)) }
    {
        match delivery {
            Delivery::Edge { future, from, to } => self.deliver_edge(alloc, future, from, to),
            Delivery::Need { future, to, loc } => self.deliver_need(alloc, future, to, *loc),
        }
    }

    fn deliver_edge(
        &mut self,
        alloc: Global,
        future: &FutureName,
        from: &ActivityName,
        to: &ActivityName,
    ) -> Result<bool, AllocError>
        requires run { IsSomeRun self.old }
        ensures delivered { (program : Tree) (budget : ℕ) (entries : List EntryShape)
            (s : RunShape) → IsRunOf self.old program budget entries s →
            let e = Delivered (Edge (future_shape future.now) from.now to.now) in
            IfOk result (IsRedone self.new program budget (entries ++ e ∷ []) (entered e s)) }
    {
        let Some(_) = self.population.roster.number(from) else {
            return Ok(false);
        };
        let Some(number) = self.receiver(to) else {
            return Ok(false);
        };
        self.population.deliver_edge(alloc, future, number)
    }

    fn deliver_need(
        &mut self,
        alloc: Global,
        future: &FutureName,
        to: &ActivityName,
        loc: Place,
    ) -> Result<bool, AllocError>
        requires run { IsSomeRun self.old }
        ensures delivered { (program : Tree) (budget : ℕ) (entries : List EntryShape)
            (s : RunShape) → IsRunOf self.old program budget entries s →
            let e = Delivered (Need (future_shape future.now) to.now loc) in
            IfOk result (IsRedone self.new program budget (entries ++ e ∷ []) (entered e s)) }
    {
        let Some(number) = self.receiver(to) else {
            return Ok(false);
        };
        let Some(place) = self.place_of(number, loc) else {
            return Ok(false);
        };
        self.population.deliver_need(alloc, future, number, place)
    }
}

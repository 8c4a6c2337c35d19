//! Edges as reductions and deliveries tell them, each asked about once.

ghost use Rattle.std.specs.Prelude.{
  ◌≡◌,
  ◌<◌,
  ◌++◌,
  ◌∷◌,
  [],
  IfOk,
  IsSome,
  List,
  None,
  OnErr,
  OnOk,
  false,
  true,
  length,
};
ghost use Rattle.asp_model.specs.Configuration.{Configuration};
ghost use Rattle.asp_model.specs.Intent.{Effect};
ghost use Rattle.asp_model.specs.Names.{FutureShape, Name};
ghost use Rattle.asp_model.specs.Shapes.{delivery_shape, future_shape};
ghost use Rattle.asp_model.specs.Step.{with_effect};
ghost use Rattle.code_table.specs.Shapes.{parcel_shape};
ghost use Rattle.def_journals.specs.Edges.{Begins, after_event, after_events, home_of, no_holders};
ghost use Rattle.def_journals.specs.Passing.{effect_events};
ghost use Rattle.law_steps.specs.Steps.{IsNewTo};
ghost use Rattle.step_activity.specs.Effects.{IsGiven};
ghost use Rattle.future_update.specs.Changes.{once_filled};
ghost use Rattle.future_update.specs.Holders.{IsTurned, is_met};
ghost use Rattle.core_edges.specs.Answers.{AreAnswered};
ghost use Rattle.core_edges.specs.Deliveries.{IsAfterDelivery};
ghost use Rattle.core_edges.specs.Due.{IsDue};
ghost use Rattle.core_edges.specs.Given.{AreLearned, IsSomeFresh};
ghost use Rattle.core_edges.specs.Labels.{AreByLabels};
ghost use Rattle.core_edges.specs.Strategies.{KeepsEdges, KeepsOthers, strategy_in};

use asp_model::{ActivityName, Delivery, FutureName};
use code_table::Parcel;
use future_update::{EdgeNames, Holders};
use std::alloc::{AllocError, Global};
use std::collections::BTreeMap;
use step_activity::Given;
use update_policy::{Plan, Policies, PolicyBox, Strategy, UpdatePolicy};

/// The edges of a core, and the policies that are asked about them. No call ties `AllocError` to
/// what it asks for, and after it nothing is said of the edges.
#[derive(Drop)]
pub struct Edges<P = PolicyBox> {
    pub(crate) holders: Holders,
    pub(crate) plan: Plan,
    /// Of those futures whose strategy is not that of all others.
    pub(crate) strategies: BTreeMap<FutureName, Strategy>,
    pub(crate) policies: Policies<P>,
}

impl<P: UpdatePolicy> Edges<P> {
    /// No future and no edge.
    pub fn new(alloc: Global, plan: Plan, policies: Policies<P>) -> Edges<P>
        ensures holders { result.holders.holders ≡ no_holders }
        ensures answers { result.holders.answers ≡ [] }
        ensures activities { result.holders.activities ≡ [] }
        ensures plan { result.plan ≡ plan }
        ensures policies { result.policies ≡ policies }
        ensures strategies { (f : FutureShape) → strategy_in result f ≡ plan.strategy }
    {
        Edges {
            holders: Holders::new(alloc),
            plan,
            strategies: BTreeMap::new(alloc),
            policies,
        }
    }

    /// The edges, with those that were delivered, and the homes of futures.
    pub fn holders(&self) -> &Holders
        ensures holders { result.now ≡ self.now.holders }
    {
        &self.holders
    }

    /// An activity that was not met is in from now on. The answer is its number, from 0 in order.
    pub fn met(&mut self, activity: &ActivityName) -> Result<u32, AllocError>
        requires new { is_met activity.now self.old.holders.activities ≡ false }
        ensures met { let old = self.old.holders.activities in
            OnOk result (self.new.holders.activities ≡ old ++ (activity.now, false) ∷ []) }
        ensures number { IfOk result (λ number. number ≡ length self.old.holders.activities) }
        ensures edges { KeepsEdges self.old self.new }
        ensures err { OnErr result (self.new.holders ≡ self.old.holders) }
    {
        self.holders.met(activity)
    }

    /// The activity of a number is out from now on. It takes no memory.
    pub fn lent(&mut self, number: u32)
        requires met { number < length self.old.holders.activities }
        ensures turned { let old = self.old.holders.activities in
            IsTurned number true old self.new.holders.activities }
        ensures edges { KeepsEdges self.old self.new }
    {
        self.holders.lent(number)
    }

    /// The activity of a number is in from now on. It takes no memory.
    pub fn returned(&mut self, number: u32)
        requires met { number < length self.old.holders.activities }
        ensures turned { let old = self.old.holders.activities in
            IsTurned number false old self.new.holders.activities }
        ensures edges { KeepsEdges self.old self.new }
    {
        self.holders.returned(number)
    }

    /// A future was begun before, and this is its home.
    pub fn begun(&mut self, future: &FutureName, home: &ActivityName) -> Result<(), AllocError>
        requires new { let homes = self.old.holders.holders.homes in
            home_of (future_shape future.now) homes ≡ None }
        ensures begun { let begins = Begins (future_shape future.now) home.now in
            let old = self.old.holders.holders in
            OnOk result (self.new.holders.holders ≡ after_event begins old) }
        ensures answers { self.new.holders.answers ≡ self.old.holders.answers }
        ensures policies { self.new.policies ≡ self.old.policies }
        ensures others { KeepsOthers self.old self.new }
    {
        self.holders.sent(future, home)
    }

    /// A future that was begun before is filled. It takes no memory.
    pub fn filled(&mut self, future: &FutureName)
        requires told { let homes = self.old.holders.holders.homes in
            IsSome (home_of (future_shape future.now) homes) }
        ensures filled { let old = self.old.holders.holders in
            self.new.holders.holders ≡ once_filled (future_shape future.now) old }
        ensures answers { self.new.holders.answers ≡ self.old.holders.answers }
        ensures policies { self.new.policies ≡ self.old.policies }
        ensures others { KeepsOthers self.old self.new }
    {
        self.holders.filled(future)
    }

    /// Enters what a reduction of an activity gives to others.
    pub fn given(
        &mut self,
        alloc: Global,
        by: &ActivityName,
        given: &Given,
    ) -> Result<(), AllocError>
        requires fresh { IsSomeFresh self.old.holders.holders given.now }
        ensures holders { (e : Effect) → IsGiven by.now e given.now →
            let old = self.old.holders.holders in
            let events = effect_events by.now [] e in
            OnOk result (self.new.holders.holders ≡ after_events events old) }
        ensures answers { let strategies = strategy_in self.new in
            OnOk result (AreAnswered P.answer P.asked strategies self.old self.new) }
        ensures strategies { OnOk result (AreLearned given.now self.old self.new) }
        ensures labels { (homes : List (FutureShape × Name)) (c : Configuration) (n : Name)
            (e : Effect) → IsNewTo c e → IsGiven n e given.now → AreByLabels homes c self.old →
            OnOk result (AreByLabels homes (with_effect n e c) self.new) }
        ensures activities { let old = self.old.holders.activities in
            OnOk result (self.new.holders.activities ≡ old) }
        ensures plan { OnOk result (self.new.plan ≡ self.old.plan) }
    {
        match given {
            Given::Nothing => Ok(()),
            Given::Polled => Ok(()),
            Given::Made(name, actor) => self.pass_store(actor.as_ref().store(), by, name),
            Given::Sent(home, request) => self.sent(alloc, by, home, request),
            Given::Filled(future, _) => {
                self.holders.filled(&future.name);
                Ok(())
            }
        }
    }

    /// Enters a delivery of the value of a future.
    pub fn delivered(
        &mut self,
        alloc: Global,
        delivery: &Delivery,
        value: &Parcel,
    ) -> Result<(), AllocError>
        ensures holders { let d = delivery_shape delivery.now in
            let old = self.old.holders.holders in
            OnOk result (IsAfterDelivery d (parcel_shape value.now) old self.new.holders.holders) }
        ensures answers { let strategies = strategy_in self.old in
            OnOk result (AreAnswered P.answer P.asked strategies self.old self.new) }
        ensures others { OnOk result (KeepsOthers self.old self.new) }
    {
        match delivery {
            Delivery::Edge { future, to, .. } => {
                self.note(delivery);
                self.received(alloc, future, to, value)
            }
            Delivery::Need { future, to, .. } => self.received(alloc, future, to, value),
        }
    }

    /// The edge that was entered first of those that are owed to an activity that is in.
    pub fn next_due(&self) -> Option<EdgeNames<'_>>
        ensures due { IsDue self.now.holders result }
    {
        match self.holders.next_owed_in() {
            Some(place) => Some(self.holders.edge(place)),
            None => None,
        }
    }
}

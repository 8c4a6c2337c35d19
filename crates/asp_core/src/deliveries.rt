//! Values that are owed, and their deliveries.

ghost use Rattle.std.specs.Prelude.{
  ◌≡◌,
  Err,
  IfOk,
  IfSome,
  List,
  OnErr,
  OnOk,
  Some,
  alloc_error,
  false,
  is_some,
  not,
  slice_get,
  true,
};
ghost use Rattle.std.specs.FinMap.{find};
ghost use Rattle.std.specs.Option.{option_map};
ghost use Rattle.asp_model.specs.History.{BeginsWith, Delivered, HistoryShape, Need};
ghost use Rattle.asp_model.specs.Names.{FutureShape, Name, future_cmp};
ghost use Rattle.asp_model.specs.Shapes.{delivery_shape, future_shape};
ghost use Rattle.future_table.specs.Values.{values_of};
ghost use Rattle.def_journals.specs.Edges.{after_events};
ghost use Rattle.def_journals.specs.Journals.{RunShape, delivered};
ghost use Rattle.def_journals.specs.Owed.{next_owed};
ghost use Rattle.def_journals.specs.Passing.{entry_events};
ghost use Rattle.code_table.specs.declared.code.Node.{Node as NodeShape};
ghost use Rattle.core_seats.specs.Seats.{IsKnown, names_in};
ghost use Rattle.core_state.specs.Journal.{entries_in};
ghost use Rattle.core_state.specs.Cores.{IsSomeCore};
ghost use Rattle.core_edges.specs.Answers.{AreAnswered};
ghost use Rattle.core_edges.specs.Deliveries.{future_of};
ghost use Rattle.core_edges.specs.Labels.{AreByLabels};
ghost use Rattle.core_edges.specs.Strategies.{KeepsOthers, strategy_in};
ghost use Rattle.asp_core.specs.Calls.{HasGoneOn, MayDeliver, owed_next};
ghost use Rattle.asp_core.specs.Chosen.{StaysChosen};
ghost use Rattle.asp_core.specs.Cores.{IsKept, IsRun, code_of, history_of};
ghost use Rattle.asp_core.specs.Delivering.{IsDueDelivery, IsHanded, StandForDelivery};
ghost use Rattle.asp_core.specs.Plans.{KeepsStrategies, StayByPlan};
ghost use Rattle.asp_core.specs.Runs.{Stand, StandForSome};
ghost use Rattle.asp_core.specs.Stopping.{StaysStopped};

use crate::cores::Core;
use asp_model::{Delivery, FutureName};
use core_edges::Edges;
use core_state::{CoreState, Needed, deliver, may_deliver, next_need};
use std::alloc::{AllocError, Global};
use update_policy::UpdatePolicy;

/// A need as a delivery.
fn need_of(alloc: Global, state: &CoreState, needed: Needed) -> Result<Delivery, AllocError>
    requires core { IsSomeCore state.now }
    requires known { IsKnown needed.number state.now.seats }
    ensures need { (n : Name) → slice_get (names_in state.now.seats) needed.number ≡ Some n →
        let need = Need (future_shape needed.future) n needed.loc in
        IfOk result (λ d. delivery_shape d ≡ need) }
{
    let to = state.name(needed.number).copy(alloc)?;
    Ok(Delivery::Need {
        future: needed.future,
        to,
        loc: needed.loc as u128,
    })
}

/// What is owed next to an activity that is in.
fn owed_in<P: UpdatePolicy>(
    alloc: Global,
    state: &CoreState,
    edges: &Edges<P>,
) -> Result<Option<Delivery>, AllocError>
    requires stand { StandForSome state.now edges.now.holders }
    ensures next { (h : HistoryShape) (code : List NodeShape) (s : RunShape) →
        Stand h code s state.now edges.now.holders →
        let owed = next_owed s edges.now.holders.holders edges.now.holders.answers in
        IfOk result (λ o. option_map delivery_shape o ≡ owed) }
{
    let Some(needed) = next_need(state)? else {
        return due_in(alloc, edges);
    };
    Ok(Some(need_of(alloc, state, needed)?))
}

/// The edge that is due.
fn due_in<P: UpdatePolicy>(alloc: Global, edges: &Edges<P>) -> Result<Option<Delivery>, AllocError>
    ensures due { IfOk result (λ o. IsDueDelivery edges.now.holders (option_map delivery_shape o)) }
{
    match edges.next_due() {
        Some(edge) => Ok(Some(edge.delivery(alloc)?)),
        None => Ok(None),
    }
}

/// The future whose value is delivered.
fn future_in(delivery: &Delivery) -> &FutureName
    ensures { future_shape result.now ≡ future_of (delivery_shape delivery.now) }
{
    match delivery {
        Delivery::Edge { future, .. } => future,
        Delivery::Need { future, .. } => future,
    }
}

/// The edges are told of a delivery.
fn tell<P: UpdatePolicy>(
    alloc: Global,
    state: &CoreState,
    edges: &mut Edges<P>,
    delivery: &Delivery,
) -> Result<(), AllocError>
    requires filled { let f = future_of (delivery_shape delivery.now) in
        is_some (find future_cmp f (values_of state.now.futures)) ≡ true }
    ensures told { (s : RunShape) → values_of state.now.futures ≡ s.configuration.futures →
        let events = entry_events (Delivered (delivery_shape delivery.now)) s in
        let holders = after_events events edges.old.holders.holders in
        OnOk result (edges.new.holders.holders ≡ holders) }
    ensures answers { let strategies = strategy_in edges.old in
        OnOk result (AreAnswered P.answer P.asked strategies edges.old edges.new) }
    ensures others { OnOk result (KeepsOthers edges.old edges.new) }
{
    let Some(value) = state.futures.value(future_in(delivery)) else {
        unreachable!()
    };
    edges.delivered(alloc, delivery, value)
}

/// A value is delivered in a state, and the edges are told.
fn hand<P: UpdatePolicy>(
    alloc: Global,
    state: &mut CoreState,
    edges: &mut Edges<P>,
    delivery: &Delivery,
) -> Result<(), AllocError>
    requires delivery { let d = delivery_shape delivery.now in
        StandForDelivery state.old edges.old.holders d }
    ensures handed { (h : HistoryShape) (code : List NodeShape) (s : RunShape) →
        (homes : List (FutureShape × Name)) → Stand h code s state.old edges.old.holders →
        AreByLabels homes s.configuration edges.old → let d = delivery_shape delivery.now in
        MayDeliver s d → OnOk result (IsHanded homes h code d state.new edges.new) }
    ensures answers { let strategies = strategy_in edges.new in
        OnOk result (AreAnswered P.answer P.asked strategies edges.old edges.new) }
    ensures keeps { OnOk result (KeepsStrategies edges.old edges.new) }
    ensures entries { OnErr result
        (entries_in state.new.journal ≡ entries_in state.old.journal) }
{
    tell(alloc, state, edges, delivery)?;
    deliver(state, delivery)
}

/// Whether nothing is owed to an activity that is in: nobody has a need, and no edge is due.
fn owes_nothing<P: UpdatePolicy>(state: &CoreState, edges: &Edges<P>) -> bool
    ensures nothing { (h : HistoryShape) (code : List NodeShape) (s : RunShape) →
        Stand h code s state.now edges.now.holders →
        let owed = next_owed s edges.now.holders.holders edges.now.holders.answers in
        is_some owed ≡ not result }
{
    match state.ranks.first_needy() {
        Some(_) => false,
        None => edges.next_due().is_none(),
    }
}

impl<P: UpdatePolicy> Core<P> {
    /// Whether `next_owed` would answer nothing. It takes no memory.
    pub fn owes_nothing(&self) -> bool
        requires kept { IsKept self.now }
        ensures nothing { (s : RunShape) → IsRun self.now s →
            is_some (owed_next self.now s) ≡ not result }
    {
        owes_nothing(&self.state, &self.edges)
    }

    /// What is owed next to an activity that is in: needs before edges, that of the least number
    /// first, then the edge that was entered first.
    pub fn next_owed(&mut self) -> Result<Option<Delivery>, AllocError>
        requires kept { IsKept self.old }
        ensures next { (s : RunShape) → IsRun self.old s →
            IfOk result (λ o. option_map delivery_shape o ≡ owed_next self.old s) }
        ensures may { (s : RunShape) → IsRun self.old s →
            IfOk result (λ o. IfSome o (λ d. MayDeliver s (delivery_shape d))) }
        ensures same { OnOk result (self.new ≡ self.old) }
        ensures spent { self.old.spent ≡ true → result ≡ Err alloc_error }
        ensures gives_up { OnErr result (self.new.spent ≡ true) }
        ensures history { history_of self.new ≡ history_of self.old }
        ensures kept { IsKept self.new }
        ensures code { code_of self.new ≡ code_of self.old }
    {
        if self.spent {
            return Err(AllocError);
        }
        self.spent = true;
        let owed = owed_in(self.alloc, &self.state, &self.edges)?;
        self.spent = false;
        Ok(owed)
    }

    /// Whether a delivery may be made, by the definition of its entry.
    pub fn may_deliver(&self, delivery: &Delivery) -> bool
        requires kept { IsKept self.now }
        ensures may { (s : RunShape) → IsRun self.now s →
            result ≡ is_some (delivered (delivery_shape delivery.now) s) }
        ensures spent { self.now.spent ≡ true → result ≡ false }
    {
        if self.spent {
            return false;
        }
        may_deliver(&self.state, delivery)
    }

    /// Delivers the value of a future to an activity that is in: along an edge, to each place that
    /// holds the future; at a need, to that place. It need not have been owed. The policies are
    /// asked about the edges that arise.
    pub fn deliver(&mut self, delivery: &Delivery) -> Result<(), AllocError>
        requires kept { IsKept self.old }
        requires may { (s : RunShape) → IsRun self.old s →
            MayDeliver s (delivery_shape delivery.now) }
        ensures delivered { (s : RunShape) → IsRun self.old s →
            let entry = Delivered (delivery_shape delivery.now) in
            OnOk result (HasGoneOn self.old entry self.new) }
        ensures answers { let strategies = strategy_in self.new.edges in
            OnOk result (AreAnswered P.answer P.asked strategies self.old.edges self.new.edges) }
        ensures by_plan { OnOk result
            (StayByPlan P.answer P.asked self.old.edges self.new.edges) }
        ensures chosen { (s : RunShape) → IsRun self.old s →
            owed_next self.old s ≡ Some (delivery_shape delivery.now) →
            OnOk result (StaysChosen self.old self.new) }
        ensures stopped { OnOk result
            (StaysStopped (history_of self.old) (history_of self.new)) }
        ensures spent { self.old.spent ≡ true → result ≡ Err alloc_error }
        ensures gives_up { OnErr result (self.new.spent ≡ true) }
        ensures err { OnErr result (history_of self.new ≡ history_of self.old) }
        ensures kept { IsKept self.new }
        ensures begins { BeginsWith (history_of self.new) (history_of self.old) }
        ensures code { code_of self.new ≡ code_of self.old }
    {
        if self.spent {
            return Err(AllocError);
        }
        self.spent = true;
        hand(self.alloc, &mut self.state, &mut self.edges, delivery)?;
        self.spent = false;
        Ok(())
    }
}

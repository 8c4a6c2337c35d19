//! What is passed on by requests, by new activities and with values.

ghost use Rattle.std.specs.Prelude.{◌≡◌, [], None, OnOk};
ghost use Rattle.std.specs.Bool.{OnFalse};
ghost use Rattle.asp_model.specs.Shapes.{delivery_shape, future_shape};
ghost use Rattle.code_table.specs.Cells.{coded, held_future};
ghost use Rattle.code_table.specs.Shapes.{parcel_shape};
ghost use Rattle.def_journals.specs.Edges.{Receives, after_event, home_of};
ghost use Rattle.def_journals.specs.Passing.{futures_in};
ghost use Rattle.request_queue.specs.Requests.{request_shape};
ghost use Rattle.core_edges.specs.Answers.{AreAnswered};
ghost use Rattle.core_edges.specs.Deliveries.{IsNoted};
ghost use Rattle.core_edges.specs.Passing.{
  ArePassed,
  IsHeldPassed,
  IsSent,
  future_held,
  futures_held,
  one_future,
};
ghost use Rattle.core_edges.specs.Strategies.{IsLearned, KeepsLearning, KeepsOthers, strategy_in};

use crate::edges::Edges;
use crate::futures::future_in;
use asp_model::{ActivityName, Delivery, FutureName};
use code_table::{Cells, Parcel, View};
use object_store::Store;
use request_queue::Request;
use std::alloc::{AllocError, Global};
use update_policy::{Strategy, UpdatePolicy};

/// Whether one of some cells holds a future.
fn holds_futures(cells: &Cells) -> bool
    ensures none { OnFalse result (futures_held cells.now.items ≡ []) }
{
    if let Some(_) = cells.plain() {
        return false;
    }
    for place in 0..cells.len() {
        match future_in(cells.view(place)) {
            Some(_) => return true,
            None => {}
        }
    }
    false
}

impl<P: UpdatePolicy> Edges<P> {
    /// The strategy of a future.
    fn strategy_of(&self, future: &FutureName) -> Strategy
        ensures strategy { result ≡ strategy_in self.now (future_shape future.now) }
    {
        match self.strategies.get(future) {
            Some(strategy) => *strategy,
            None => self.plan.strategy,
        }
    }

    /// Keeps the strategy of the future of a new request.
    fn learn(&mut self, alloc: Global, request: &Request) -> Result<(), AllocError>
        ensures learned { let f = held_future request.now.future in
            OnOk result (IsLearned f request.now.label.text self.old self.new) }
        ensures rest { KeepsLearning self.old self.new }
    {
        let strategy = self.plan.strategy_of(request.label.as_label());
        if strategy == self.plan.strategy {
            let _other = self.strategies.remove(&request.future.name);
            return Ok(());
        }
        let future = request.future.name.copy(alloc)?;
        self.strategies.insert(future, strategy)?;
        Ok(())
    }

    /// A future goes from one activity to another.
    pub(crate) fn pass(
        &mut self,
        future: &FutureName,
        from: &ActivityName,
        to: &ActivityName,
    ) -> Result<(), AllocError>
        ensures passed { let fs = one_future (future_shape future.now) in
            OnOk result (ArePassed P.answer P.asked fs from.now to.now self.old self.new) }
    {
        match self.strategy_of(future) {
            Strategy::Lazy => self
                .holders
                .passed(future, from, to, &mut self.policies.lazy),
            Strategy::Forward => self
                .holders
                .passed(future, from, to, &mut self.policies.forward),
            Strategy::Message => self
                .holders
                .passed(future, from, to, &mut self.policies.message),
        }
    }

    /// What a cell holds goes from one activity to another.
    fn pass_cell(
        &mut self,
        cell: View,
        from: &ActivityName,
        to: &ActivityName,
    ) -> Result<(), AllocError>
        ensures passed { let fs = future_held (coded cell.entry) in
            OnOk result (ArePassed P.answer P.asked fs from.now to.now self.old self.new) }
    {
        match future_in(cell) {
            Some(future) => self.pass(future, from, to),
            None => Ok(()),
        }
    }

    /// What cells hold goes from one activity to another.
    fn pass_cells(
        &mut self,
        cells: &Cells,
        from: &ActivityName,
        to: &ActivityName,
    ) -> Result<(), AllocError>
        ensures passed { let fs = futures_held cells.now.items in
            OnOk result (ArePassed P.answer P.asked fs from.now to.now self.old self.new) }
    {
        if let Some(_) = cells.plain() {
            return Ok(());
        }
        for place in 0..cells.len() {
            self.pass_cell(cells.view(place), from, to)?;
        }
        Ok(())
    }

    /// What a store holds goes from one activity to another.
    pub(crate) fn pass_store(
        &mut self,
        store: &Store,
        from: &ActivityName,
        to: &ActivityName,
    ) -> Result<(), AllocError>
        ensures passed { let fs = futures_held store.now.cells in
            OnOk result (ArePassed P.answer P.asked fs from.now to.now self.old self.new) }
    {
        for place in 0..store.len() {
            self.pass_cell(store.cell(place), from, to)?;
        }
        Ok(())
    }

    /// An activity sends a request to another, which is the home of its future.
    pub(crate) fn sent(
        &mut self,
        alloc: Global,
        by: &ActivityName,
        home: &ActivityName,
        request: &Request,
    ) -> Result<(), AllocError>
        requires new { let homes = self.old.holders.holders.homes in
            home_of (held_future request.now.future) homes ≡ None }
        ensures sent { let r = request_shape request.now in
            OnOk result (IsSent P.answer P.asked by.now home.now r self.old self.new) }
    {
        self.learn(alloc, request)?;
        let future = &request.future.name;
        self.holders.sent(future, home)?;
        self.pass(future, home, by)?;
        self.pass_cells(&request.arguments.cells, by, home)
    }

    /// A delivery goes along an edge, if it is kept.
    pub(crate) fn note(&mut self, delivery: &Delivery)
        ensures noted { IsNoted (delivery_shape delivery.now) self.old self.new }
    {
        if let Some(place) = self.holders.place_of(delivery) {
            if !self.holders.was_delivered(place) {
                self.holders.delivered(place);
            }
        }
    }

    /// What a value holds goes from the home of its future to whoever receives it.
    fn pass_held(
        &mut self,
        alloc: Global,
        future: &FutureName,
        by: &ActivityName,
        value: &Parcel,
    ) -> Result<(), AllocError>
        ensures passed { let f = future_shape future.now in
            let held = futures_held value.now.cells.items in
            OnOk result (IsHeldPassed P.answer P.asked f held by.now self.old self.new) }
    {
        let cells = &value.cells;
        if !holds_futures(cells) {
            return Ok(());
        }
        match self.holders.home(future) {
            Some(home) => {
                let home = home.copy(alloc)?;
                self.pass_cells(cells, &home, by)
            }
            None => Ok(()),
        }
    }

    /// An activity receives the value of a future. What that holds comes from the future's home.
    pub(crate) fn received(
        &mut self,
        alloc: Global,
        future: &FutureName,
        by: &ActivityName,
        value: &Parcel,
    ) -> Result<(), AllocError>
        ensures holders { let f = future_shape future.now in
            let held = futures_in (parcel_shape value.now).cells in
            let old = self.old.holders.holders in
            OnOk result (self.new.holders.holders ≡ after_event (Receives f by.now held) old) }
        ensures answers { let strategies = strategy_in self.old in
            OnOk result (AreAnswered P.answer P.asked strategies self.old self.new) }
        ensures others { OnOk result (KeepsOthers self.old self.new) }
    {
        self.pass_held(alloc, future, by, value)?;
        self.holders.received(future, by)
    }
}

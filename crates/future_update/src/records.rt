//! What is known of futures and edges, by the numbers of activities.

ghost use Rattle.std.specs.Prelude.{
  ◌≡◌,
  ◌<◌,
  ◌++◌,
  ◌∷◌,
  [],
  IfOk,
  IsSome,
  None,
  OnErr,
  OnOk,
  length,
  not,
  position,
  slice_get,
  false,
};
ghost use Rattle.std.specs.Option.{option_copied};
ghost use Rattle.asp_model.specs.Shapes.{choice_shape, future_shape};
ghost use Rattle.def_journals.specs.Edges.{
  Begins,
  Delivers,
  Fills,
  Passes,
  after_event,
  has_edge,
  has_filled,
  has_received,
  has_value as hands_on,
  home_of,
  is_home,
  no_holders,
  same_edge,
};
ghost use Rattle.indexmap.specs.IndexMap.{keys};
ghost use Rattle.future_update.specs.Changes.{once_filled, once_received};
ghost use Rattle.future_update.specs.Names.{
  IsEdgeOf,
  IsFutureOf,
  IsKnown,
  IsKnownEdge,
  IsKnownFuture,
  IsNumberOf,
  Keeps,
  edge_between,
  edge_of,
  future_of,
  name_of,
};
ghost use Rattle.future_update.specs.Numbered.{
  IsHomeNumber,
  IsKnownReceipt,
  IsPassed,
  edge_at,
  future_at,
  receipt_entry,
};
ghost use Rattle.future_update.specs.Records.{
  AreRecords,
  HasRoom,
  answers_of,
  names_of,
  shape_of,
};

use crate::names::Names;
use crate::numbered::{Edge, Future, Receipt};
use asp_model::{ActivityName, Choice, FutureName};
use core_sets::Ticks;
use indexmap::{IndexMap, IndexSet};
use std::alloc::{AllocError, Global};

#[derive(Drop)]
pub struct Records {
    pub names: Names,
    /// Each future with its home.
    pub homes: IndexMap<Future, u32>,
    /// Of the futures that have a home.
    pub filled: Ticks,
    pub edges: IndexSet<Edge>,
    pub answers: Vec<Choice>,
    /// Of the edges.
    pub delivered: Ticks,
    pub received: IndexSet<Receipt>,
}

impl Records {
    pub fn new(alloc: Global) -> Records
        ensures records { AreRecords result }
        ensures shape { shape_of result ≡ no_holders }
        ensures edges { result.edges.keys ≡ [] }
        ensures answers { answers_of result ≡ [] }
    {
        Records {
            names: Names::new(alloc),
            homes: IndexMap::new(alloc),
            filled: Ticks::new(alloc),
            edges: IndexSet::new(alloc),
            answers: Vec::new(alloc),
            delivered: Ticks::new(alloc),
            received: IndexSet::new(alloc),
        }
    }

    /// Whether a future is filled.
    pub fn is_filled(&self, future: Future) -> bool
        requires records { AreRecords self.now }
        requires known { IsKnownFuture (names_of self.now) future }
        ensures filled { let f = future_of (names_of self.now) future in
            result ≡ has_filled f (shape_of self.now).filled }
    {
        match self.homes.get_index_of(&future) {
            Some(number) => self.filled.is_done(number),
            None => false,
        }
    }

    /// The number of a future's home.
    pub fn home(&self, future: Future) -> Option<u32>
        requires records { AreRecords self.now }
        requires known { IsKnownFuture (names_of self.now) future }
        ensures home { let f = future_of (names_of self.now) future in
            IsHomeNumber (names_of self.now) (home_of f (shape_of self.now).homes) result }
    {
        match self.homes.get(&future) {
            Some(home) => Some(*home),
            None => None,
        }
    }

    /// Whether an activity has received the value of a future.
    pub fn has_received(&self, future: Future, by: u32) -> bool
        requires records { AreRecords self.now }
        requires known { IsKnownFuture (names_of self.now) future }
        requires by { IsKnown (names_of self.now) by }
        ensures received { let ns = names_of self.now in
            result ≡ has_received (future_of ns future) (name_of ns by)
            (shape_of self.now).received }
    {
        self.received.contains(&Receipt { future, by })
    }

    /// Whether the first activity of an edge can hand the value on.
    pub fn has_value(&self, edge: Edge) -> bool
        requires records { AreRecords self.now }
        requires known { IsKnownEdge (names_of self.now) edge }
        ensures value { result ≡ hands_on (shape_of self.now) (edge_of (names_of self.now) edge) }
    {
        self.is_from_home(edge) || self.has_received(edge.future, edge.from)
    }

    // Whether the first activity of an edge is the home of the future.
    fn is_from_home(&self, edge: Edge) -> bool
        requires records { AreRecords self.now }
        requires known { IsKnownEdge (names_of self.now) edge }
        ensures home { let x = edge_of (names_of self.now) edge in
            result ≡ is_home x.from (home_of x.future (shape_of self.now).homes) }
    {
        match self.home(edge.future) {
            Some(home) => edge.from == home,
            None => false,
        }
    }

    /// The edge of a place.
    pub fn edge(&self, place: usize) -> Edge
        requires within { place < length self.now.edges.keys }
        ensures edge { result ≡ edge_at self.now.edges.keys place }
    {
        self.edges.as_slice()[place]
    }

    /// Whether the edge of a place was delivered.
    pub fn was_delivered(&self, place: usize) -> bool
        requires records { AreRecords self.now }
        requires within { place < length self.now.edges.keys }
        ensures delivered { let x = edge_of (names_of self.now) (edge_at self.now.edges.keys place) in
            result ≡ has_edge x (shape_of self.now).delivered }
    {
        self.delivered.is_done(place)
    }

    /// Whether an edge is kept.
    pub fn has_edge(&self, edge: Edge) -> bool
        requires records { AreRecords self.now }
        requires known { IsKnownEdge (names_of self.now) edge }
        ensures edge { let x = edge_of (names_of self.now) edge in
            result ≡ has_edge x (shape_of self.now).edges }
    {
        self.edges.contains(&edge)
    }

    /// The number of the home of a future.
    pub fn find_home(&self, future: &FutureName) -> Option<u32>
        requires records { AreRecords self.now }
        ensures home { let f = future_shape future.now in
            IsHomeNumber (names_of self.now) (home_of f (shape_of self.now).homes) result }
    {
        match self.names.find_future(future) {
            Some(future) => self.home(future),
            None => None,
        }
    }

    /// The place of an edge.
    pub fn place_of(
        &self,
        future: &FutureName,
        from: &ActivityName,
        to: &ActivityName,
    ) -> Option<usize>
        requires records { AreRecords self.now }
        ensures place { let edge = edge_between (future_shape future.now) from.now to.now in
            result ≡ position (same_edge edge) (shape_of self.now).edges }
    {
        match self.names.find_edge(future, from, to) {
            Some(edge) => self.edges.get_index_of(&edge),
            None => None,
        }
    }

    /// The home of a new future, and the room to fill it.
    pub fn sent(&mut self, future: &FutureName, home: &ActivityName) -> Result<(), AllocError>
        requires records { AreRecords self.old }
        requires new { home_of (future_shape future.now) (shape_of self.old).homes ≡ None }
        ensures records { AreRecords self.new }
        ensures keeps { Keeps (names_of self.old) (names_of self.new) }
        ensures edges { self.new.edges.keys ≡ self.old.edges.keys }
        ensures begun { let event = Begins (future_shape future.now) home.now in
            OnOk result (shape_of self.new ≡ after_event event (shape_of self.old)) }
        ensures answers { answers_of self.new ≡ answers_of self.old }
        ensures unfilled { OnOk result
            (has_filled (future_shape future.now) (shape_of self.old).filled ≡ false) }
        ensures err { OnErr result (shape_of self.new ≡ shape_of self.old) }
    {
        let (future, home) = self.enter_home(future, home)?;
        self.begin(future, home)
    }

    fn enter_home(
        &mut self,
        future: &FutureName,
        home: &ActivityName,
    ) -> Result<(Future, u32), AllocError>
        requires records { AreRecords self.old }
        ensures records { AreRecords self.new }
        ensures keeps { Keeps (names_of self.old) (names_of self.new) }
        ensures edges { self.new.edges.keys ≡ self.old.edges.keys }
        ensures shape { shape_of self.new ≡ shape_of self.old }
        ensures answers { answers_of self.new ≡ answers_of self.old }
        ensures future { IfOk result
            (λ x. IsFutureOf (names_of self.new) (future_shape future.now) x.0) }
        ensures home { IfOk result (λ x. IsNumberOf (names_of self.new) home.now x.1) }
    {
        self.names.enter_home(future, home)
    }

    /// An activity by its number.
    pub fn enter_activity(&mut self, activity: &ActivityName) -> Result<u32, AllocError>
        requires records { AreRecords self.old }
        ensures records { AreRecords self.new }
        ensures keeps { Keeps (names_of self.old) (names_of self.new) }
        ensures edges { self.new.edges.keys ≡ self.old.edges.keys }
        ensures shape { shape_of self.new ≡ shape_of self.old }
        ensures answers { answers_of self.new ≡ answers_of self.old }
        ensures number { IfOk result (IsNumberOf (names_of self.new) activity.now) }
    {
        self.names.enter(activity)
    }

    /// An edge by numbers.
    pub fn enter_edge(
        &mut self,
        future: &FutureName,
        from: &ActivityName,
        to: &ActivityName,
    ) -> Result<Edge, AllocError>
        requires records { AreRecords self.old }
        ensures records { AreRecords self.new }
        ensures keeps { Keeps (names_of self.old) (names_of self.new) }
        ensures edges { self.new.edges.keys ≡ self.old.edges.keys }
        ensures shape { shape_of self.new ≡ shape_of self.old }
        ensures answers { answers_of self.new ≡ answers_of self.old }
        ensures edge { let edge = edge_between (future_shape future.now) from.now to.now in
            IfOk result (IsEdgeOf (names_of self.new) edge) }
    {
        self.names.enter_edge(future, from, to)
    }

    /// A receipt by numbers.
    pub fn enter_receipt(
        &mut self,
        future: &FutureName,
        by: &ActivityName,
    ) -> Result<Receipt, AllocError>
        requires records { AreRecords self.old }
        ensures records { AreRecords self.new }
        ensures keeps { Keeps (names_of self.old) (names_of self.new) }
        ensures edges { self.new.edges.keys ≡ self.old.edges.keys }
        ensures shape { shape_of self.new ≡ shape_of self.old }
        ensures answers { answers_of self.new ≡ answers_of self.old }
        ensures future { IfOk result
            (λ x. IsFutureOf (names_of self.new) (future_shape future.now) x.future) }
        ensures by { IfOk result (λ x. IsNumberOf (names_of self.new) by.now x.by) }
    {
        let (future, by) = self.enter_home(future, by)?;
        Ok(Receipt { future, by })
    }

    fn begin(&mut self, future: Future, home: u32) -> Result<(), AllocError>
        requires records { AreRecords self.old }
        requires known { IsKnownFuture (names_of self.old) future }
        requires home { IsKnown (names_of self.old) home }
        requires new { let f = future_of (names_of self.old) future in
            home_of f (shape_of self.old).homes ≡ None }
        ensures records { AreRecords self.new }
        ensures names { names_of self.new ≡ names_of self.old }
        ensures edges { self.new.edges.keys ≡ self.old.edges.keys }
        ensures begun { let ns = names_of self.old in
            let event = Begins (future_of ns future) (name_of ns home) in
            OnOk result (shape_of self.new ≡ after_event event (shape_of self.old)) }
        ensures answers { answers_of self.new ≡ answers_of self.old }
        ensures unfilled { let f = future_of (names_of self.old) future in
            OnOk result (has_filled f (shape_of self.old).filled ≡ false) }
        ensures err { OnErr result (shape_of self.new ≡ shape_of self.old) }
    {
        self.homes.reserve(1)?;
        self.filled.reserve()?;
        let _ = self.homes.insert(future, home);
        self.filled.grow();
        Ok(())
    }

    /// Makes room for one more edge.
    pub fn reserve(&mut self) -> Result<(), AllocError>
        requires records { AreRecords self.old }
        ensures records { AreRecords self.new }
        ensures names { names_of self.new ≡ names_of self.old }
        ensures edges { self.new.edges.keys ≡ self.old.edges.keys }
        ensures shape { shape_of self.new ≡ shape_of self.old }
        ensures answers { answers_of self.new ≡ answers_of self.old }
        ensures room { OnOk result (HasRoom self.new) }
    {
        self.edges.reserve(1)?;
        self.answers.reserve(1)?;
        self.delivered.reserve()
    }

    /// One more edge, with its answer.
    pub fn enter(&mut self, edge: Edge, answer: Choice)
        requires records { AreRecords self.old }
        requires room { HasRoom self.old }
        requires passed { IsPassed (names_of self.old) edge }
        requires new { let x = edge_of (names_of self.old) edge in
            has_edge x (shape_of self.old).edges ≡ false }
        ensures records { AreRecords self.new }
        ensures names { names_of self.new ≡ names_of self.old }
        ensures edges { self.new.edges.keys ≡ self.old.edges.keys ++ edge ∷ [] }
        ensures shape { let event = Passes (edge_of (names_of self.old) edge) in
            shape_of self.new ≡ after_event event (shape_of self.old) }
        ensures answers { answers_of self.new ≡ answers_of self.old ++ choice_shape answer ∷ [] }
    {
        let _ = self.edges.insert(edge);
        let _ = self.answers.push(answer);
        self.delivered.grow();
    }

    /// A future is filled, and the answer is whether it was not before.
    pub fn fill(&mut self, future: Future) -> bool
        requires records { AreRecords self.old }
        requires known { IsKnownFuture (names_of self.old) future }
        requires told { let f = future_of (names_of self.old) future in
            IsSome (home_of f (shape_of self.old).homes) }
        ensures records { AreRecords self.new }
        ensures names { names_of self.new ≡ names_of self.old }
        ensures edges { self.new.edges.keys ≡ self.old.edges.keys }
        ensures shape { let f = future_of (names_of self.old) future in
            shape_of self.new ≡ once_filled f (shape_of self.old) }
        ensures answers { answers_of self.new ≡ answers_of self.old }
        ensures first { let f = future_of (names_of self.old) future in
            result ≡ not (has_filled f (shape_of self.old).filled) }
    {
        let is_first = !self.is_filled(future);
        if is_first {
            self.tick_filled(future);
        }
        is_first
    }

    fn tick_filled(&mut self, future: Future)
        requires records { AreRecords self.old }
        requires known { IsKnownFuture (names_of self.old) future }
        requires told { let f = future_of (names_of self.old) future in
            IsSome (home_of f (shape_of self.old).homes) }
        requires open { let f = future_of (names_of self.old) future in
            has_filled f (shape_of self.old).filled ≡ false }
        ensures records { AreRecords self.new }
        ensures names { names_of self.new ≡ names_of self.old }
        ensures edges { self.new.edges.keys ≡ self.old.edges.keys }
        ensures shape { let event = Fills (future_of (names_of self.old) future) in
            shape_of self.new ≡ after_event event (shape_of self.old) }
        ensures answers { answers_of self.new ≡ answers_of self.old }
    {
        match self.homes.get_index_of(&future) {
            Some(number) => self.filled.tick(number),
            None => unreachable!(),
        }
    }

    /// An activity has received the value of a future, and the answer is whether it had not before.
    pub fn receive(&mut self, receipt: Receipt) -> Result<bool, AllocError>
        requires records { AreRecords self.old }
        requires known { IsKnownReceipt (names_of self.old) receipt }
        ensures records { AreRecords self.new }
        ensures names { names_of self.new ≡ names_of self.old }
        ensures edges { self.new.edges.keys ≡ self.old.edges.keys }
        ensures shape { let x = receipt_entry (names_of self.old) receipt in
            OnOk result (shape_of self.new ≡ once_received x.0 x.1 (shape_of self.old)) }
        ensures answers { answers_of self.new ≡ answers_of self.old }
        ensures first { let x = receipt_entry (names_of self.old) receipt in
            IfOk result (λ b. b ≡ not (has_received x.0 x.1 (shape_of self.old).received)) }
        ensures err { OnErr result (shape_of self.new ≡ shape_of self.old) }
    {
        Ok(self.received.insert(receipt)?)
    }

    /// The edge of a place counts as delivered.
    pub fn deliver(&mut self, place: usize)
        requires records { AreRecords self.old }
        requires within { place < length self.old.edges.keys }
        requires open { let x = edge_of (names_of self.old) (edge_at self.old.edges.keys place) in
            has_edge x (shape_of self.old).delivered ≡ false }
        ensures records { AreRecords self.new }
        ensures names { names_of self.new ≡ names_of self.old }
        ensures edges { self.new.edges.keys ≡ self.old.edges.keys }
        ensures shape { let x = edge_of (names_of self.old) (edge_at self.old.edges.keys place) in
            shape_of self.new ≡ after_event (Delivers x) (shape_of self.old) }
        ensures answers { answers_of self.new ≡ answers_of self.old }
    {
        self.delivered.tick(place);
    }
}

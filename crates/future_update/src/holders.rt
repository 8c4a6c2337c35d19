//! The edges along which futures went, each once, and which of them are owed.

ghost use Rattle.std.specs.Prelude.{
  ◌≡◌,
  ◌+◌,
  ◌<◌,
  ◌≤◌,
  ◌++◌,
  ◌∷◌,
  [],
  IfOk,
  IsSome,
  None,
  OnErr,
  OnOk,
  Some,
  false,
  true,
  length,
  map,
};
ghost use Rattle.std.specs.Option.{option_copied};
ghost use Rattle.asp_model.specs.Shapes.{delivery_shape, future_shape};
ghost use Rattle.def_journals.specs.Edges.{Begins, Passes, after_event, home_of, is_no_edge as is_none, no_holders};
ghost use Rattle.future_update.specs.Changes.{once_filled, once_received};
ghost use Rattle.core_sets.specs.Firsts.{IsFirstFrom};
ghost use Rattle.future_update.specs.Holders.{
  AreEdges,
  AreHomes,
  IsTurned,
  answered,
  edge_in,
  home_shape,
  is_delivered,
  is_met,
  owed_in,
  owed_to_one_in,
  place_in,
  undelivered,
  with_delivery,
};
ghost use Rattle.future_update.specs.Names.{edge_between, edge_named};

use crate::edge::EdgeNames;
use crate::entering::{enter, make_room};
use crate::homes::homes_of;
use crate::passings::Passings;
use crate::records::Records;
use crate::settling::settle;
use asp_model::{ActivityName, Delivery, FutureName};
use core_sets::{Lanes, MOST_NUMBERED};
use std::alloc::{AllocError, Global};
use std::collections::BTreeSet;
use std::marker::Model;
use update_policy::UpdatePolicy;

/// Which futures were passed from one activity to another, who has received which value, and what is
/// owed. No call ties `AllocError` to what it asks for.
#[derive(Drop)]
pub struct Holders {
    records: Records,
    passings: Passings,
    /// Each edge in the lane of its receiver, which is closed while that is out.
    owed: Lanes,
    /// Those that were met, by their lanes.
    activities: Vec<u32>,
}

impl Model for Holders {
    ghost use Rattle.future_update.specs.Holders.{HoldersView};

    ghost Value = { HoldersView };

    ghost use Rattle.future_update.specs.Kept.{AreHolders, view_of};

    ghost view = { view_of };

    ghost invariant = { AreHolders };
}

impl Holders {
    /// No future and no edge.
    pub fn new(alloc: Global) -> Holders
        ensures none { result.holders ≡ no_holders }
        ensures answers { result.answers ≡ [] }
        ensures activities { result.activities ≡ [] }
    {
        Holders {
            records: Records::new(alloc),
            passings: Passings {
                sorted: BTreeSet::new(alloc),
                last: None,
            },
            owed: Lanes::new(alloc),
            activities: Vec::new(alloc),
        }
    }

    /// How many edges are kept.
    pub fn len(&self) -> usize
        ensures len { result ≡ length self.now.holders.edges }
        ensures edges { AreEdges self.now.holders.edges }
    {
        self.records.edges.len()
    }

    /// Says the home of a new future, and makes the room that `filled` needs.
    pub fn sent(&mut self, future: &FutureName, home: &ActivityName) -> Result<(), AllocError>
        requires new { home_of (future_shape future.now) self.old.holders.homes ≡ None }
        ensures begun { let event = Begins (future_shape future.now) home.now in
            OnOk result (self.new.holders ≡ after_event event self.old.holders) }
        ensures answers { self.new.answers ≡ self.old.answers }
        ensures activities { self.new.activities ≡ self.old.activities }
        ensures err { OnErr result (self.new ≡ self.old) }
    {
        self.records.sent(future, home)
    }

    /// Says that an activity passed a future to another. For an edge that is kept already, or whose
    /// ends are one, nothing changes and nobody is asked.
    pub fn passed<P: UpdatePolicy>(
        &mut self,
        future: &FutureName,
        from: &ActivityName,
        to: &ActivityName,
        policy: &mut P,
    ) -> Result<(), AllocError>
        ensures edges { let edge = edge_between (future_shape future.now) from.now to.now in
            OnOk result (self.new.holders ≡ after_event (Passes edge) self.old.holders) }
        ensures answers { let edge = edge_between (future_shape future.now) from.now to.now in
            let answer = P.answer policy.old edge.future edge.from edge.to in
            let answers = answered edge self.old.holders.edges answer self.old.answers in
            OnOk result (self.new.answers ≡ answers) }
        ensures activities { self.new.activities ≡ self.old.activities }
        ensures asked { P.asked policy.new ≤ P.asked policy.old + 1 }
        ensures nobody { let edge = edge_between (future_shape future.now) from.now to.now in
            is_none edge self.old.holders.edges ≡ true → policy.new ≡ policy.old }
        ensures err { OnErr result (self.new ≡ self.old) }
        ensures unasked { OnErr result (policy.new ≡ policy.old) }
    {
        let edge = self.records.enter_edge(future, from, to)?;
        if self.records.is_no_edge(edge) {
            return Ok(());
        }
        make_room(&mut self.records, &mut self.passings, &mut self.owed, edge)?;
        let answer = policy.choose(future, from, to);
        enter(
            &mut self.records,
            &mut self.passings,
            &mut self.owed,
            edge,
            answer,
        );
        Ok(())
    }

    /// The home of a future.
    pub fn home(&self, future: &FutureName) -> Option<&ActivityName>
        ensures home { let f = future_shape future.now in
            option_copied result ≡ home_of f self.now.holders.homes }
    {
        match self.records.find_home(future) {
            Some(home) => Some(self.records.names.name(home)),
            None => None,
        }
    }

    /// The futures that have homes, ascending, each with its home.
    pub fn homes(&self, alloc: Global) -> Result<Vec<(FutureName, ActivityName)>, AllocError>
        ensures homes { let homes = self.now.holders.homes in
            IfOk result (λ v. AreHomes homes (map home_shape v.items)) }
    {
        homes_of(alloc, &self.records)
    }

    /// Says that a future is filled. It takes no memory.
    pub fn filled(&mut self, future: &FutureName)
        requires told { IsSome (home_of (future_shape future.now) self.old.holders.homes) }
        ensures filled { let f = future_shape future.now in
            self.new.holders ≡ once_filled f self.old.holders }
        ensures answers { self.new.answers ≡ self.old.answers }
        ensures activities { self.new.activities ≡ self.old.activities }
    {
        match self.records.names.find_future(future) {
            Some(future) => {
                if self.records.fill(future) {
                    let (records, passings) = (&self.records, &self.passings);
                    settle(records, passings, &mut self.owed, future, 0, u32::MAX);
                }
            }
            None => unreachable!(),
        }
    }

    /// Says that an activity has received the value of a future.
    pub fn received(&mut self, future: &FutureName, by: &ActivityName) -> Result<(), AllocError>
        ensures received { let f = future_shape future.now in
            OnOk result (self.new.holders ≡ once_received f by.now self.old.holders) }
        ensures answers { self.new.answers ≡ self.old.answers }
        ensures activities { self.new.activities ≡ self.old.activities }
        ensures err { OnErr result (self.new ≡ self.old) }
    {
        let receipt = self.records.enter_receipt(future, by)?;
        if self.records.receive(receipt)? {
            let (future, by) = (receipt.future, receipt.by);
            settle(
                &self.records,
                &self.passings,
                &mut self.owed,
                future,
                by,
                by,
            );
        }
        Ok(())
    }

    /// The place of an edge, from 0 in order of entering, if it is kept.
    pub fn place_of(&self, edge: &Delivery) -> Option<usize>
        ensures place { let delivery = delivery_shape edge.now in
            result ≡ place_in delivery self.now.holders.edges }
    {
        match edge {
            Delivery::Edge { future, from, to } => self.records.place_of(future, from, to),
            Delivery::Need { .. } => None,
        }
    }

    /// The edge of a place, with its names lent.
    pub fn edge(&self, place: usize) -> EdgeNames<'_>
        requires within { place < length self.now.holders.edges }
        ensures edge { edge_in self.now place ≡ Some (edge_named result) }
    {
        let edge = self.records.edge(place);
        self.records.names.edge(edge)
    }

    /// The first place from one on whose edge is owed.
    pub fn next_owed(&self, start: usize) -> Option<usize>
        ensures first { IsFirstFrom (owed_in self.now) start result }
    {
        self.owed.next(start)
    }

    /// The first place whose edge is owed to an activity that is in.
    pub fn next_owed_in(&self) -> Option<usize>
        ensures first { IsFirstFrom (owed_to_one_in self.now) 0 result }
    {
        self.owed.first_open()
    }

    /// An activity that was not met is in from now on. The result is its number, from 0 in order. It
    /// fails when there are as many activities as can be numbered, or without memory.
    pub fn met(&mut self, activity: &ActivityName) -> Result<u32, AllocError>
        requires new { is_met activity.now self.old.activities ≡ false }
        ensures met { OnOk result
            (self.new.activities ≡ self.old.activities ++ (activity.now, false) ∷ []) }
        ensures number { IfOk result (λ number. number ≡ length self.old.activities) }
        ensures holders { self.new.holders ≡ self.old.holders }
        ensures answers { self.new.answers ≡ self.old.answers }
        ensures err { OnErr result (self.new ≡ self.old) }
    {
        let number = self.activities.len();
        if number >= MOST_NUMBERED {
            return Err(AllocError);
        }
        let lane = self.records.enter_activity(activity)?;
        self.owed.make_lane(lane)?;
        self.activities.push(lane)?;
        Ok(number as u32)
    }

    /// The activity of a number is out from now on. It takes no memory.
    pub fn lent(&mut self, number: u32)
        requires met { number < length self.old.activities }
        ensures turned { IsTurned number true self.old.activities self.new.activities }
        ensures holders { self.new.holders ≡ self.old.holders }
        ensures answers { self.new.answers ≡ self.old.answers }
    {
        self.owed.close(self.activities[number as usize], true);
    }

    /// The activity of a number is in from now on. It takes no memory.
    pub fn returned(&mut self, number: u32)
        requires met { number < length self.old.activities }
        ensures turned { IsTurned number false self.old.activities self.new.activities }
        ensures holders { self.new.holders ≡ self.old.holders }
        ensures answers { self.new.answers ≡ self.old.answers }
    {
        self.owed.close(self.activities[number as usize], false);
    }

    /// Says that the value was delivered along the edge of a place. It takes no memory.
    pub fn delivered(&mut self, place: usize)
        requires within { place < length self.old.holders.edges }
        requires open { is_delivered self.old.holders (edge_in self.old place) ≡ false }
        ensures delivered { let edge = edge_in self.old place in
            self.new.holders ≡ with_delivery self.old.holders edge }
        ensures answers { self.new.answers ≡ self.old.answers }
        ensures activities { self.new.activities ≡ self.old.activities }
    {
        self.records.deliver(place);
        self.owed.set(place, false);
    }

    /// Whether the value was delivered along the edge of a place.
    pub fn was_delivered(&self, place: usize) -> bool
        requires within { place < length self.now.holders.edges }
        ensures delivered { let edge = edge_in self.now place in
            result ≡ is_delivered self.now.holders edge }
    {
        self.records.was_delivered(place)
    }

    /// How many edges are kept along which the value was not delivered.
    pub fn left(&self) -> u64
        ensures left { result ≡ length (undelivered self.now.holders) }
    {
        let edges = self.records.edges.len();
        let delivered = self.records.delivered.order().len();
        (edges - delivered) as u64
    }

    /// The places of the edges that were delivered, in order.
    pub fn deliveries(&self) -> &[u32]
        ensures delivered { map (edge_in self.now) result.now ≡ map Some self.now.holders.delivered }
    {
        self.records.delivered.order()
    }
}

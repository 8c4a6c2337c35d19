//! Activities under numbers from 0, in the order in which they were met.

ghost use Rattle.std.specs.Prelude.{◌≡◌, ◌<◌, ◌+◌, [], IfOk, length, true};
ghost use Rattle.asp_model.specs.Shapes.{future_shape};
ghost use Rattle.future_update.specs.Names.{
  AreNames,
  IsEdgeOf,
  IsFound,
  IsFoundEdge,
  IsFoundFuture,
  IsFutureOf,
  IsKnown,
  IsKnownEdge,
  IsNew,
  IsNumberOf,
  Keeps,
  edge_between,
  edge_named,
  edge_of,
  name_of,
  names_in,
};

use crate::edge::EdgeNames;
use crate::numbered::{Edge, Future};
use asp_model::{ActivityName, FutureName};
use core_sets::MOST_NUMBERED;
use indexmap::IndexSet;
use std::alloc::{AllocError, Global};

#[derive(Drop)]
pub struct Names {
    alloc: Global,
    names: IndexSet<ActivityName>,
    /// Those that were entered last as a future's sender and with it, which are tried first.
    sender: u32,
    beside: u32,
}

impl Names {
    pub fn new(alloc: Global) -> Names
        ensures none { names_in result ≡ [] }
    {
        Names {
            alloc,
            names: IndexSet::new(alloc),
            sender: 0,
            beside: 0,
        }
    }

    /// The activity of a number.
    pub fn name(&self, number: u32) -> &ActivityName
        requires known { IsKnown (names_in self.now) number }
        ensures name { result.now ≡ name_of (names_in self.now) number }
    {
        &self.names.as_slice()[number as usize]
    }

    /// The names of an edge.
    pub fn edge(&self, edge: Edge) -> EdgeNames<'_>
        requires known { IsKnownEdge (names_in self.now) edge }
        ensures edge { edge_named result ≡ edge_of (names_in self.now) edge }
    {
        EdgeNames {
            by: self.name(edge.future.by),
            index: edge.future.index,
            from: self.name(edge.from),
            to: self.name(edge.to),
        }
    }

    /// The number of an activity, if it was met.
    pub fn find(&self, name: &ActivityName) -> Option<u32>
        requires names { AreNames (names_in self.now) }
        ensures found { IsFound (names_in self.now) name.now result }
    {
        match self.names.get_index_of(name) {
            Some(number) => Some(number as u32),
            None => None,
        }
    }

    /// A future by the number of its sender, if that was met.
    pub fn find_future(&self, future: &FutureName) -> Option<Future>
        requires names { AreNames (names_in self.now) }
        ensures found { IsFoundFuture (names_in self.now) (future_shape future.now) result }
    {
        match self.find(&future.by) {
            Some(by) => Some(Future {
                by,
                index: future.index,
            }),
            None => None,
        }
    }

    /// An edge by the numbers of its activities, if they were met.
    pub fn find_edge(
        &self,
        future: &FutureName,
        from: &ActivityName,
        to: &ActivityName,
    ) -> Option<Edge>
        requires names { AreNames (names_in self.now) }
        ensures found { let edge = edge_between (future_shape future.now) from.now to.now in
            IsFoundEdge (names_in self.now) edge result }
    {
        match (self.find_future(future), self.find(from), self.find(to)) {
            (Some(future), Some(from), Some(to)) => Some(Edge { future, from, to }),
            _ => None,
        }
    }

    /// The number of an activity, which is met with this call if it was not before.
    pub fn enter(&mut self, name: &ActivityName) -> Result<u32, AllocError>
        requires names { AreNames (names_in self.old) }
        ensures names { AreNames (names_in self.new) }
        ensures keeps { Keeps (names_in self.old) (names_in self.new) }
        ensures number { IfOk result (IsNumberOf (names_in self.new) name.now) }
    {
        match self.find(name) {
            Some(number) => Ok(number),
            None => self.add(name),
        }
    }

    // It fails when there are as many activities as can be numbered, or without memory.
    fn add(&mut self, name: &ActivityName) -> Result<u32, AllocError>
        requires names { AreNames (names_in self.old) }
        requires new { IsNew (names_in self.old) name.now }
        ensures names { AreNames (names_in self.new) }
        ensures keeps { Keeps (names_in self.old) (names_in self.new) }
        ensures number { IfOk result (IsNumberOf (names_in self.new) name.now) }
    {
        let number = self.names.len();
        if number >= MOST_NUMBERED {
            return Err(AllocError);
        }
        let name = name.copy(self.alloc)?;
        self.names.insert(name)?;
        Ok(number as u32)
    }

    /// As `enter`, where a number is tried before the name is looked up.
    fn enter_near(&mut self, name: &ActivityName, guess: u32) -> Result<u32, AllocError>
        requires names { AreNames (names_in self.old) }
        ensures names { AreNames (names_in self.new) }
        ensures keeps { Keeps (names_in self.old) (names_in self.new) }
        ensures number { IfOk result (IsNumberOf (names_in self.new) name.now) }
    {
        if self.is_named(guess, name) {
            return Ok(guess);
        }
        self.enter(name)
    }

    /// As `enter`, where two numbers are tried before the name is looked up.
    fn enter_one_of(
        &mut self,
        name: &ActivityName,
        first: u32,
        second: u32,
    ) -> Result<u32, AllocError>
        requires names { AreNames (names_in self.old) }
        ensures names { AreNames (names_in self.new) }
        ensures keeps { Keeps (names_in self.old) (names_in self.new) }
        ensures number { IfOk result (IsNumberOf (names_in self.new) name.now) }
    {
        if self.is_named(first, name) {
            return Ok(first);
        }
        self.enter_near(name, second)
    }

    // Whether a number is that of an activity.
    #[tactic(auto, using(crate::proofs::NameLemmas::named_at))]
    fn is_named(&self, number: u32, name: &ActivityName) -> bool
        ensures named { result ≡ true → IsNumberOf (names_in self.now) name.now number }
    {
        match self.names.get_index(number as usize) {
            Some(known) => known == name,
            None => false,
        }
    }

    /// A future and an activity by numbers.
    pub fn enter_home(
        &mut self,
        future: &FutureName,
        home: &ActivityName,
    ) -> Result<(Future, u32), AllocError>
        requires names { AreNames (names_in self.old) }
        ensures names { AreNames (names_in self.new) }
        ensures keeps { Keeps (names_in self.old) (names_in self.new) }
        ensures future { IfOk result
            (λ x. IsFutureOf (names_in self.new) (future_shape future.now) x.0) }
        ensures home { IfOk result (λ x. IsNumberOf (names_in self.new) home.now x.1) }
    {
        let newest = self.names.len().saturating_sub(1) as u32;
        let by = self.enter_near(&future.by, self.sender)?;
        let home = self.enter_one_of(home, self.beside, newest)?;
        self.sender = by;
        self.beside = home;
        let index = future.index;
        Ok((Future { by, index }, home))
    }

    /// An edge by the numbers of its activities, which are met with this call if they were not before.
    pub fn enter_edge(
        &mut self,
        future: &FutureName,
        from: &ActivityName,
        to: &ActivityName,
    ) -> Result<Edge, AllocError>
        requires names { AreNames (names_in self.old) }
        ensures names { AreNames (names_in self.new) }
        ensures keeps { Keeps (names_in self.old) (names_in self.new) }
        ensures edge { let edge = edge_between (future_shape future.now) from.now to.now in
            IfOk result (IsEdgeOf (names_in self.new) edge) }
    {
        let by = self.enter_near(&future.by, self.sender)?;
        let from = self.enter_one_of(from, self.beside, by)?;
        let to = self.enter_one_of(to, by, self.beside)?;
        let index = future.index;
        let future = Future { by, index };
        Ok(Edge { future, from, to })
    }
}

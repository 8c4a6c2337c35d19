//! The activities of a run by their numbers, and the futures that are filled.

ghost use Rattle.std.specs.Prelude.{◌≡◌, ◌<◌, [], IfOk, None, OnOk, Some, length};
ghost use Rattle.std.specs.Arc.{arc_value};
ghost use Rattle.std.specs.FinMap.{find};
ghost use Rattle.std.specs.Option.{option_map};
ghost use Rattle.asp_model.specs.Names.{Name, future_cmp, main_name};
ghost use Rattle.def_journals.specs.Journals.{number_of};
ghost use Rattle.asp_model.specs.Configuration as model;
ghost use Rattle.asp_model.specs.Configuration.{Configuration, log_of, requests_of, start as start_of};
ghost use Rattle.asp_model.specs.Intent.{Acts, Effect};
ghost use Rattle.asp_model.specs.Step.{intent_in};
ghost use Rattle.code_table.specs.Cells.{held_future};
ghost use Rattle.code_table.specs.Shapes.{parcel_shape};
ghost use Rattle.request_queue.specs.Requests.{request_shape};
ghost use Rattle.future_table.specs.Values.{values_of};
ghost use Rattle.law_steps.specs.Reached.{IsAt, IsThere};
ghost use Rattle.law_steps.specs.Waking.{labels_wanted};
ghost use Rattle.serve_rules.specs.Wanted.{wanted_labels};
ghost use Rattle.step_activity.specs.Actors.{Stands, code_of, log_in};
ghost use Rattle.step_activity.specs.Effects.{IsGiven};
ghost use Rattle.replay_parts.specs.Roster.{IsEntered, IsRoster};
ghost use Rattle.replay_population.specs.Population.{HasSeat, AreActorsOf, AreNamed, IsClosedBySome, IsForgotten, IsFoundAt, IsGivenIn, IsKnown, IsPassing, IsPopulation, IsRunIn, IsSet, KeepsPassed, found_in, or_zero, passed_in, seat_at, term_of, unboxed, with_activity, with_poll, with_request, with_value};

use asp_model::ActivityName;
use code_table::{Code, Future, Parcel};
use future_table::FutureTable;
use replay_parts::Roster;
use request_queue::Request;
use serve_rules::Wanted;
use std::alloc::{AllocError, Global};
use std::collections::BTreeMap;
use std::mem;
use std::sync::Arc;
use step_activity::{Actor, Given};

/// The activities by their numbers, and the filled futures. A name may have a number before an
/// activity has the name. Of who waits for the members of a group: how many of them are known to
/// have values.
pub struct Population {
    pub roster: Roster,
    pub activities: Vec<Option<Box<Actor>>>,
    pub futures: FutureTable,
    pub passed: BTreeMap<u32, usize>,
}

// Written out, so that crates above drop a population by one call, and need not prove the drop of
// what is in one.
impl Drop for Population {
    fn drop(self) {
        let Population {
            roster: _,
            activities: _,
            futures: _,
            passed: _,
        } = self;
    }
}

impl Population {
    /// Nobody. These names have numbers.
    pub fn of_names(alloc: Global, roster: Roster) -> Population
        ensures nobody { (n : Name) → found_in result n ≡ None }
        ensures roster { result.roster ≡ roster }
        ensures futures { values_of result.futures ≡ [] }
        ensures passed { (n : Name) → passed_in result n ≡ None }
    {
        Population {
            roster,
            activities: Vec::new(alloc),
            futures: FutureTable::new(alloc),
            passed: BTreeMap::new(alloc),
        }
    }

    /// The main activity alone, with the program of this code as its term. The names of the roster
    /// keep their numbers.
    pub fn start(
        alloc: Global,
        code: Arc<Code>,
        roster: Roster,
    ) -> Result<(Population, u32), AllocError>
        requires sound { IsRoster roster }
        ensures population { let first = start_of (term_of (arc_value code)) in
            IfOk result (λ p. IsPopulation p.0 first) }
        ensures number { IfOk result (λ p. IsEntered main_name p.1 roster p.0.roster) }
        ensures passed { (n : Name) → IfOk result (λ p. passed_in p.0 n ≡ None) }
    {
        let main = Actor::main(alloc, code)?;
        let boxed = Box::new(alloc, main)?;
        let name = ActivityName::main(alloc)?;
        let mut population = Population::of_names(alloc, roster);
        let number = population.insert(name, boxed)?;
        Ok((population, number))
    }

    /// The filled futures alone.
    pub(crate) fn into_futures(self) -> FutureTable
        ensures futures { result ≡ self.futures }
    {
        let Population {
            roster: _,
            activities: _,
            futures,
            passed: _,
        } = self;
        futures
    }

    /// Takes out who has a number.
    pub(crate) fn take(&mut self, number: u32) -> Option<Box<Actor>>
        ensures taken { unboxed result ≡ seat_at self.old.activities.items number }
        ensures set { IsSet self.old number None self.new }
    {
        let place = number as usize;
        if place >= self.activities.len() {
            return None;
        }
        mem::replace(&mut self.activities[place], None)
    }

    /// Makes room for one under a number.
    fn reach(&mut self, number: u32) -> Result<(), AllocError>
        ensures reached { OnOk result (HasSeat self.old number self.new) }
    {
        let place = number as usize;
        while self.activities.len() <= place {
            self.activities.push(None)?;
        }
        Ok(())
    }

    /// Puts one under a number, whoever was there.
    pub(crate) fn put(&mut self, number: u32, actor: Box<Actor>) -> Result<(), AllocError>
        ensures set { OnOk result (IsSet self.old number (Some actor.value) self.new) }
    {
        self.reach(number)?;
        self.activities[number as usize] = Some(actor);
        Ok(())
    }

    /// An activity takes its reductions up to the next that needs others, at most so many, and no
    /// more than its count allows. How many is answered. It can be looked at then.
    pub fn run(
        &mut self,
        alloc: Global,
        number: u32,
        most: u64,
        count: u64,
    ) -> Result<u64, AllocError>
        ensures runs { (c : Configuration) (n : Name) → IsPopulation self.old c →
            number_of n self.old.roster ≡ Some number →
            IfOk result (IsRunIn self.new c n most count) }
        ensures roster { OnOk result (self.new.roster ≡ self.old.roster) }
        ensures passed { OnOk result (KeepsPassed self.old self.new) }
    {
        let Some(mut boxed) = self.take(number) else {
            return Ok(0);
        };
        let actor = boxed.as_mut();
        let left = count.saturating_sub(actor.count());
        let taken = actor.run(alloc, most.min(left))?;
        self.put(number, boxed)?;
        Ok(taken)
    }

    /// An activity takes its reduction, and what that gives to others is answered.
    pub fn act(&mut self, alloc: Global, number: u32) -> Result<Given, AllocError>
        requires closed { IsClosedBySome self.old }
        requires known { IsKnown self.old number }
        ensures acts { (c : Configuration) (e : Effect) (n : Name) → IsPopulation self.old c →
            number_of n self.old.roster ≡ Some number → intent_in c n ≡ Acts e →
            let then = with_activity n e.own c in
            IfOk result (λ g. let last = with_poll n g then in
            IsGiven n e g × IsGivenIn self.new last g) }
        ensures roster { OnOk result (self.new.roster ≡ self.old.roster) }
        ensures passed { OnOk result (KeepsPassed self.old self.new) }
    {
        self.act_found(alloc, number, None)
    }

    /// An activity takes its reduction as by `act`. A request that it serves is the one of the number
    /// `found`, where a look at it told one.
    pub fn act_found(
        &mut self,
        alloc: Global,
        number: u32,
        found: Option<u64>,
    ) -> Result<Given, AllocError>
        requires closed { IsClosedBySome self.old }
        requires known { IsKnown self.old number }
        requires found { IsFoundAt self.old number found }
        ensures acts { (c : Configuration) (e : Effect) (n : Name) → IsPopulation self.old c →
            number_of n self.old.roster ≡ Some number → intent_in c n ≡ Acts e →
            let then = with_activity n e.own c in
            IfOk result (λ g. let last = with_poll n g then in
            IsGiven n e g × IsGivenIn self.new last g) }
        ensures roster { OnOk result (self.new.roster ≡ self.old.roster) }
        ensures passed { OnOk result (KeepsPassed self.old self.new) }
    {
        let place = number as usize;
        if place >= self.activities.len() {
            return Ok(Given::Nothing);
        }
        match &mut self.activities[place] {
            Some(actor) => {
                let name = self.roster.name(number);
                actor.as_mut().act_found(alloc, name, &self.futures, found)
            }
            None => Ok(Given::Nothing),
        }
    }

    /// An activity that is made. Its number is answered.
    pub fn insert(&mut self, name: ActivityName, actor: Box<Actor>) -> Result<u32, AllocError>
        ensures made { (c : Configuration) (a : model.Activity) → (p : IsPopulation self.old c) →
            requests_of c name ≡ [] → log_of c name ≡ [] → Stands actor.value a [] →
            log_in actor.value ≡ [] → code_of actor.value ≡ p.code →
            OnOk result (IsPopulation self.new (with_activity name a c)) }
        ensures number { IfOk result (λ k. IsEntered name k self.old.roster self.new.roster) }
        ensures passed { OnOk result (KeepsPassed self.old self.new) }
    {
        let number = self.roster.enter(name)?;
        self.passed.remove(&number);
        self.put(number, actor)?;
        Ok(number)
    }

    /// A request, to an activity that is there.
    pub fn send(&mut self, alloc: Global, to: u32, request: Request) -> Result<(), AllocError>
        requires code { AreActorsOf (arc_value request.arguments.code) self.old }
        requires known { IsKnown self.old to }
        ensures received { (c : Configuration) (n : Name) → IsPopulation self.old c →
            number_of n self.old.roster ≡ Some to → IsThere c n →
            OnOk result (IsPopulation self.new (with_request n (request_shape request) c)) }
        ensures roster { OnOk result (self.new.roster ≡ self.old.roster) }
        ensures passed { OnOk result (KeepsPassed self.old self.new) }
    {
        let Some(mut boxed) = self.take(to) else {
            return Ok(());
        };
        boxed.as_mut().receive(alloc, request)?;
        self.put(to, boxed)
    }

    /// The activity of a number.
    pub fn get(&self, number: u32) -> Option<&Actor>
        ensures value { option_map (λ a. a.now) result ≡ seat_at self.now.activities.items number }
    {
        match self.activities.get(number as usize)? {
            Some(actor) => Some(actor.as_ref()),
            None => None,
        }
    }

    /// The labels that an activity asks for where it stands, which has settled.
    pub fn wanted(&self, number: u32) -> Result<Wanted<'_>, AllocError>
        requires closed { IsClosedBySome self.now }
        requires known { IsKnown self.now number }
        ensures wanted { (c : Configuration) (a : model.Activity) (n : Name) →
            IsPopulation self.now c → number_of n self.now.roster ≡ Some number → IsAt c n a →
            IfOk result (λ w. wanted_labels w ≡ labels_wanted a) }
    {
        match self.get(number) {
            Some(actor) => actor.wanted(),
            None => Ok(Wanted::Labels(&[])),
        }
    }

    /// One who waits for the members of a group has passed so many.
    pub fn pass(&mut self, number: u32, passed: usize) -> Result<(), AllocError>
        ensures passing { (n : Name) → number_of n self.old.roster ≡ Some number →
            OnOk result (IsPassing self.old n passed self.new) }
    {
        if passed > 0 {
            self.passed.insert(number, passed)?;
        }
        Ok(())
    }

    /// How many it had passed, as far as that was noted. Nothing is noted of it then.
    pub fn take_passed(&mut self, number: u32) -> usize
        ensures told { (n : Name) → number_of n self.old.roster ≡ Some number →
            result ≡ or_zero (passed_in self.old n) }
        ensures none { (n : Name) → number_of n self.old.roster ≡ Some number →
            passed_in self.new n ≡ None }
        ensures forgotten { (n : Name) → number_of n self.old.roster ≡ Some number →
            IsForgotten self.old n self.new }
    {
        if self.passed.is_empty() {
            return 0;
        }
        self.passed.remove(&number).unwrap_or(0)
    }

    /// How many receptions the log of an activity has.
    pub fn logged(&self, number: u32) -> usize
        ensures logged { (c : Configuration) (n : Name) → IsPopulation self.now c →
            number_of n self.now.roster ≡ Some number → IsThere c n →
            result ≡ length (log_of c n) }
    {
        match self.get(number) {
            Some(actor) => actor.logged(),
            None => 0,
        }
    }

    /// A future's value.
    pub fn fill(&mut self, future: Arc<Future>, value: Parcel) -> Result<(), AllocError>
        requires absent { let values = values_of self.old.futures in
            find future_cmp (held_future future) values ≡ None }
        requires one_root { length value.roots.items ≡ 1 }
        ensures filled { (c : Configuration) → (p : IsPopulation self.old c) →
            arc_value value.code ≡ p.code → OnOk result
            (IsPopulation self.new (with_value (held_future future) (parcel_shape value) c)) }
        ensures roster { OnOk result (self.new.roster ≡ self.old.roster) }
        ensures passed { OnOk result (KeepsPassed self.old self.new) }
    {
        self.futures.fill(future, value)
    }

    /// Takes out all activities, by their names.
    pub fn take_all(
        &mut self,
        alloc: Global,
    ) -> Result<BTreeMap<ActivityName, Box<Actor>>, AllocError>
        ensures all { IfOk result (λ t. AreNamed self.old t.entries) }
        ensures futures { self.new.futures ≡ self.old.futures }
    {
        let mut named = Vec::new(alloc);
        for number in 0..self.roster.len() as u32 {
            if let Some(actor) = self.take(number) {
                let name = self.roster.name(number).copy(alloc)?;
                named.push((name, actor))?;
            }
        }
        BTreeMap::from_iter(alloc, named)
    }
}

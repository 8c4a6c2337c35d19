//! A round: the least of those who are ready takes reductions, or leaves them.

ghost use Rattle.std.specs.Prelude.{◌≡◌, ◌<◌, ◌≤◌, ◌⊎◌, ◌++◌, true, IfOk, List, None, OnOk, Some, length};
ghost use Rattle.std.specs.Arc.{arc_value};
ghost use Rattle.asp_model.specs.Names.{Name, main_name};
ghost use Rattle.asp_model.specs.Term.{Tree};
ghost use Rattle.asp_model.specs.Configuration.{Configuration, start as start_of};
ghost use Rattle.asp_model.specs.Intent.{Effect};
ghost use Rattle.asp_model.specs.Step.{with_effect};
ghost use Rattle.def_journals.specs.Journals.{number_of};
ghost use Rattle.law_steps.specs.Reached.{IsThere};
ghost use Rattle.law_schedules.specs.Schedules.{IsNextIn, IsOf};
ghost use Rattle.asp_model.specs.Shapes.{reception_shape};
ghost use Rattle.replay_parts.specs.Roster.{Leads};
ghost use Rattle.replay_parts.specs.Bounds.{IsAscending, IsNumbered, lists_within};
ghost use Rattle.replay_population.specs.Population.{HasPassedBySome, IsPopulation, KeepsPassed, passed_in, term_of};
ghost use Rattle.replay_population.specs.Giving.{IsGiving};
ghost use Rattle.replay_one.specs.Schedule.{IsMoreReady, ready_in, seen, sends_in};
ghost use Rattle.replay_one.specs.Round.{IsFewer, IsGivingTo, IsGone, IsHandedOn, IsInOrder, IsKept, IsRound, IsRunAt, IsRunBut, IsRunButSomewhere, IsRunLess, IsRunLessSomewhere, IsRunSomewhere, IsStepped, IsTried, seen_in};
ghost use Rattle.replay_parts.specs.Listening.{IsDeafToLines};
ghost use Rattle.replay_parts.specs.Notes.{NoteShape};
ghost use Rattle.replay_one.specs.Told.{AreToldIf, AreToldInRound, AreToldInStep, notes_by};

use crate::looks::{Look, look_at, next_in};
use crate::schedule::Schedule;
use crate::telling::{before, tell};
use asp_model::Reception;
use code_table::Code;
use replay_parts::{Bounds, Least, Next, Notes, owner_of};
use replay_population::{Population, Roster};
use std::alloc::{AllocError, Global};
use std::sync::Arc;
use step_activity::Given;

/// What came of a round.
#[derive(Clone, Copy)]
pub enum Round {
    /// So many reductions of one activity.
    Steps(u64),
    /// One leaves those who are ready.
    Leaves,
    /// Nobody is ready.
    Ends,
}

/// How many reductions an activity took that need no other, and how many members it has passed of a
/// group that it waits for.
#[derive(Clone, Copy)]
pub struct Gone {
    pub taken: u64,
    pub passed: usize,
}

/// The activities, and who of them is ready.
pub struct Machine {
    pub population: Population,
    pub schedule: Schedule,
}

// Written out, so that crates above drop it by one call.
impl Drop for Machine {
    fn drop(self) {
        let Machine {
            population: _,
            schedule: _,
        } = self;
    }
}

/// How many members one has passed after so many reductions, that had passed so many.
fn passed_after(taken: u64, known: usize) -> usize
    ensures first { taken ≡ 0 → result ≡ known }
    ensures later { 0 < taken → result ≡ 0 }
{
    if taken == 0 { known } else { 0 }
}

/// How many reductions an activity takes in one go, of so many: none where lines are heard.
fn at_once<N: Notes>(most: u64, notes: &N) -> u64
    ensures within { result ≤ most }
    ensures lines { (result ≡ 0) ⊎ IsDeafToLines (N.tells notes.now) }
{
    if notes.hears_lines() { 0 } else { most }
}

/// Who is next in the log of an activity is ready, if it is held there. It is mostly who stepped, of
/// the number `guess`.
fn wake_next(
    alloc: Global,
    schedule: &mut Schedule,
    population: &Population,
    bounds: &Bounds,
    to: u32,
    guess: u32,
) -> Result<(), AllocError>
    requires ascending { IsAscending bounds.now }
    requires numbered { IsNumbered bounds.now population.now.roster }
    requires known { to < length population.now.roster }
    ensures more { let ns = population.now.roster in
        OnOk result (IsMoreReady (seen ns schedule.old) None (seen ns schedule.new)) }
    ensures next { (c : Configuration) (n q : Name) → let ns = population.now.roster in
        IsPopulation population.now c → number_of n ns ≡ Some to → IsThere c n →
        IsNextIn (lists_within bounds.now) c n q → sends_in (seen ns schedule.old) q n ≡ true →
        OnOk result (ready_in (seen ns schedule.new) q ≡ true) }
    ensures ordered { OnOk result (schedule.new.ready.ordered ≡ schedule.old.ready.ordered) }
{
    match next_in(population, bounds, to) {
        Next::Only(next) => wake_owner(alloc, schedule, &population.roster, next, to, guess),
        Next::Anything | Next::Nothing => Ok(()),
    }
}

/// Whose this reception is in the log of an activity is ready, if it is held there.
fn wake_owner(
    alloc: Global,
    schedule: &mut Schedule,
    roster: &Roster,
    reception: &Reception,
    to: u32,
    guess: u32,
) -> Result<(), AllocError>
    requires known { to < length roster.now }
    ensures more { let ns = roster.now in
        OnOk result (IsMoreReady (seen ns schedule.old) None (seen ns schedule.new)) }
    ensures owner { (n q : Name) → let ns = roster.now in number_of n ns ≡ Some to →
        IsOf q n (reception_shape reception.now) → sends_in (seen ns schedule.old) q n ≡ true →
        OnOk result (ready_in (seen ns schedule.new) q ≡ true) }
    ensures ordered { OnOk result (schedule.new.ready.ordered ≡ schedule.old.ready.ordered) }
{
    match roster.number_guessed(owner_of(reception, roster.name(to)), guess) {
        Some(number) => schedule.wake_sender(alloc, roster, number, to),
        None => Ok(()),
    }
}

impl Machine {
    /// The main activity alone, with the program of this code as its term.
    pub fn start(alloc: Global, bounds: &Bounds, code: Arc<Code>) -> Result<Machine, AllocError>
        requires ascending { IsAscending bounds.now }
        ensures population { let first = start_of (term_of (arc_value code)) in
            IfOk result (λ m. IsPopulation m.population first) }
        ensures numbered { IfOk result (λ m. IsNumbered bounds.now m.population.roster) }
        ensures ready { IfOk result (λ m. ready_in (seen_in m) main_name ≡ true) }
        ensures passed { (n : Name) → IfOk result (λ m. passed_in m.population n ≡ None) }
        ensures order { IfOk result IsInOrder }
    {
        let roster = bounds.roster(alloc)?;
        let ordered = roster.len() as u32;
        let (population, number) = Population::start(alloc, code, roster)?;
        let mut schedule = Schedule::new(alloc, ordered);
        schedule.wake(alloc, &population.roster, number)?;
        Ok(Machine {
            population,
            schedule,
        })
    }

    /// The activities alone.
    pub fn into_population(self) -> Population
        ensures population { result ≡ self.population }
    {
        let Machine {
            population,
            schedule: _,
        } = self;
        population
    }

    /// What a reduction gives to others, all but who stepped being ready whom that is for. A request
    /// goes to the activity of the number `target`.
    fn give(
        &mut self,
        alloc: Global,
        bounds: &Bounds,
        number: u32,
        target: Option<u32>,
        given: Given,
    ) -> Result<(), AllocError>
        requires ascending { IsAscending bounds.now }
        requires numbered { IsNumbered bounds.now self.old.population.roster }
        requires giving { IsGivingTo self.old.population number target given }
        ensures population { (c : Configuration) (e : Effect) (n : Name) →
            number_of n self.old.population.roster ≡ Some number →
            IsGiving self.old.population n given c e →
            OnOk result (IsPopulation self.new.population (with_effect n e c)) }
        ensures handed_on { (c : Configuration) (e : Effect) (n : Name) →
            number_of n self.old.population.roster ≡ Some number →
            IsGiving self.old.population n given c e →
            let lists = lists_within bounds.now in
            OnOk result (IsHandedOn lists c n e (seen_in self.old) (seen_in self.new)) }
        ensures leads { OnOk result (Leads self.old.population.roster self.new.population.roster) }
        ensures passed { OnOk result (KeepsPassed self.old.population self.new.population) }
        ensures ordered { let old = self.old.schedule.ready.ordered in
            OnOk result (self.new.schedule.ready.ordered ≡ old) }
    {
        match given {
            Given::Nothing => Ok(()),
            Given::Made(made, actor) => {
                let made = self.population.insert(made, actor)?;
                self.schedule.wake(alloc, &self.population.roster, made)
            }
            Given::Sent(_name, request) => {
                let Some(to) = target else { unreachable!() };
                let roster = &self.population.roster;
                self.schedule
                    .wake_server(alloc, roster, to, request.label.as_label())?;
                self.population.send(alloc, to, request)?;
                wake_next(
                    alloc,
                    &mut self.schedule,
                    &self.population,
                    bounds,
                    to,
                    number,
                )
            }
            Given::Filled(future, value) => {
                self.schedule
                    .wake_noted(alloc, &self.population.roster, &future.name)?;
                self.population.fill(future, value)
            }
            Given::Polled => {
                wake_next(
                    alloc,
                    &mut self.schedule,
                    &self.population,
                    bounds,
                    number,
                    number,
                )
            }
        }
    }

    /// The least of those who are ready, who was taken out of them, takes a reduction or rests.
    /// Whether it does is answered. Who steps is ready again.
    fn try_step<N: Notes>(
        &mut self,
        alloc: Global,
        bounds: &Bounds,
        number: u32,
        passed: usize,
        notes: &mut N,
    ) -> Result<bool, AllocError>
        requires ascending { IsAscending bounds.now }
        requires running { IsRunButSomewhere bounds.now self.old number }
        requires passed { HasPassedBySome self.old.population number passed }
        ensures tried { (program : Tree) (c : Configuration) (n : Name) →
            number_of n self.old.population.roster ≡ Some number →
            IsRunBut bounds.now self.old n program c →
            IfOk result (λ b. IsTried bounds.now program c b self.new) }
        ensures kept { IfOk result (λ b. IsKept self.old b self.new) }
        ensures order { IsInOrder self.old → OnOk result (IsInOrder self.new) }
        ensures told { (program : Tree) (c : Configuration) (n : Name) (xs : List NoteShape) →
            number_of n self.old.population.roster ≡ Some number →
            IsRunBut bounds.now self.old n program c → N.tells notes.old xs →
            IfOk result (AreToldIf (N.tells notes.new) xs bounds.now c) }
    {
        let guess = self.schedule.target;
        let view = look_at(alloc, &self.population, bounds, number, passed, guess)?;
        let passed = view.passed;
        let found = view.found;
        match view.look {
            Look::Leaves => Ok(false),
            Look::Awaits(future) => {
                let future = future.copy(alloc)?;
                self.population.pass(number, passed)?;
                self.schedule.note(alloc, future, number)?;
                Ok(false)
            }
            Look::Serves => {
                let wanted = self.population.wanted(number)?;
                self.schedule.serve(alloc, number, wanted)?;
                Ok(false)
            }
            Look::Holds(to) => {
                self.schedule.hold(number, to)?;
                Ok(false)
            }
            Look::Steps(target) => {
                let known = before(&self.population, number, notes)?;
                let given = self.population.act_found(alloc, number, found)?;
                tell(&self.population, number, known, &given, notes)?;
                self.give(alloc, bounds, number, target, given)?;
                self.schedule.wake(alloc, &self.population.roster, number)?;
                Ok(true)
            }
        }
    }

    /// The least of those who are ready, who was taken out of them, takes its reductions up to the
    /// next that needs others, at most so many.
    fn go<N: Notes>(
        &mut self,
        alloc: Global,
        bounds: &Bounds,
        number: u32,
        most: u64,
        notes: &N,
    ) -> Result<Gone, AllocError>
        requires ascending { IsAscending bounds.now }
        requires running { IsRunLessSomewhere bounds.now self.old number }
        ensures gone { (program : Tree) (c : Configuration) (n : Name) →
            number_of n self.old.population.roster ≡ Some number →
            IsRunLess bounds.now self.old n program c →
            IfOk result (λ g. IsGone bounds.now program c n number most g self.new) }
        ensures told { (program : Tree) (c : Configuration) (n : Name) (xs : List NoteShape) →
            number_of n self.old.population.roster ≡ Some number →
            IsRunLess bounds.now self.old n program c → N.tells notes.now xs →
            IfOk result (λ g. N.tells notes.now (xs ++ notes_by bounds.now g.taken c)) }
        ensures schedule { self.new.schedule ≡ self.old.schedule }
        ensures roster { OnOk result (self.new.population.roster ≡ self.old.population.roster) }
    {
        let known = self.population.take_passed(number);
        let count = bounds.count(number);
        let alone = at_once(most, notes);
        let taken = self.population.run(alloc, number, alone, count)?;
        let passed = passed_after(taken, known);
        Ok(Gone { taken, passed })
    }

    /// The least of those who are ready takes its reductions up to the next that needs others, and
    /// that one, at most so many in all; or it leaves them.
    fn round<N: Notes>(
        &mut self,
        alloc: Global,
        bounds: &Bounds,
        most: u64,
        notes: &mut N,
    ) -> Result<Round, AllocError>
        requires ascending { IsAscending bounds.now }
        requires running { IsRunSomewhere bounds.now self.old }
        requires order { IsInOrder self.old }
        requires some { 0 < most }
        ensures round { (program : Tree) (c : Configuration) →
            IsRunAt bounds.now self.old program c →
            IfOk result (λ t. IsRound bounds.now program c most t self.new) }
        ensures fewer { IfOk result (λ t. IsFewer self.old t self.new) }
        ensures order { OnOk result (IsInOrder self.new) }
        ensures told { (program : Tree) (c : Configuration) (xs : List NoteShape) →
            IsRunAt bounds.now self.old program c → N.tells notes.old xs →
            IfOk result (AreToldInRound (N.tells notes.new) xs bounds.now c) }
    {
        let number = match self.schedule.take_least(&self.population.roster) {
            Least::One(number) => number,
            Least::Unknown => return Ok(Round::Leaves),
            Least::Nobody => return Ok(Round::Ends),
        };
        let gone = self.go(alloc, bounds, number, most, notes)?;
        let taken = gone.taken;
        if taken == most {
            self.schedule.wake(alloc, &self.population.roster, number)?;
            return Ok(Round::Steps(taken));
        }
        if self.try_step(alloc, bounds, number, gone.passed, notes)? {
            return Ok(Round::Steps(taken + 1));
        }
        if taken > 0 {
            return Ok(Round::Steps(taken));
        }
        Ok(Round::Leaves)
    }

    /// The least-named activity that can takes reductions, at most so many. How many is answered;
    /// none where nobody can.
    pub fn step<N: Notes>(
        &mut self,
        alloc: Global,
        bounds: &Bounds,
        most: u64,
        notes: &mut N,
    ) -> Result<Option<u64>, AllocError>
        requires ascending { IsAscending bounds.now }
        requires running { IsRunSomewhere bounds.now self.old }
        requires order { IsInOrder self.old }
        requires some { 0 < most }
        ensures steps { (program : Tree) (c : Configuration) →
            IsRunAt bounds.now self.old program c →
            IfOk result (λ o. IsStepped bounds.now program c most o self.new) }
        ensures told { (program : Tree) (c : Configuration) (xs : List NoteShape) →
            IsRunAt bounds.now self.old program c → N.tells notes.old xs →
            IfOk result (AreToldInStep (N.tells notes.new) xs bounds.now c) }
        ensures order { OnOk result (IsInOrder self.new) }
    {
        loop {
            match self.round(alloc, bounds, most, notes)? {
                Round::Steps(taken) => return Ok(Some(taken)),
                Round::Ends => return Ok(None),
                Round::Leaves => {}
            }
        }
    }
}

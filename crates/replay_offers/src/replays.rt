//! The runs of a program on one thread.

ghost use Rattle.std.specs.Prelude.{◌≡◌, ◌≤◌, true, IfOk};
ghost use Rattle.asp_model.specs.declared.limits.TheConstants.{MOST_REDUCTIONS};
ghost use Rattle.asp_model.specs.Configuration.{Configuration, start as start_of};
ghost use Rattle.asp_model.specs.Outcome.{outcome_of};
ghost use Rattle.asp_model.specs.Replay.{lists_of, replay as replay_of, total};
ghost use Rattle.asp_model.specs.Shapes.{counts_shape, lists_shape, outcome_shape, tree_of, verdict_shape};
ghost use Rattle.asp_model.specs.Status.{Budget};
ghost use Rattle.asp_model.specs.Term.{Tree};
ghost use Rattle.law_schedules.specs.Divergence.{AreInOrder};
ghost use Rattle.def_paths.specs.Outcomes.{whole_outcome_of};
ghost use Rattle.outcome_search.specs.Ends.{IsEnd, IsReplayableEnd, run_logs};
ghost use Rattle.run_ends.specs.Ends.{IsEndOf};
ghost use Rattle.replay_population.specs.Reached.{IsReachedBySome, IsReachedPopulation};
ghost use Rattle.replay_parts.specs.Bounds.{IsAscending};
ghost use Rattle.replay_one.specs.Round.{IsInOrder, IsRunAt};
ghost use Rattle.replay_offers.specs.Programs.{tree_in};
ghost use Rattle.replay_parts.specs.declared.bounds.Bounds.TheVariants as bounds;
ghost use Rattle.replay_offers.specs.Replays.{IsFreePopulation, IsFreeRun, IsHeld};

use crate::entries::entries_at;
use crate::logs::{even_counts, total_of};
use asp_check::Checked;
use asp_model::{ActivityName, Counts, Lists, Outcome, Reception, Verdict};
use code_compiler::compile;
use code_table::Code;
use outcome_search::EndedRun;
use replay_one::{Bounds, Machine, NoNotes, are_replayable, counts_in, lists_in};
use replay_population::Population;
use run_ends::RunEnd;
use std::alloc::{AllocError, Global};
use std::marker::Model;
use std::sync::Arc;

/// Runs one program, each time within the same budget.
pub struct Replays {
    code: Arc<Code>,
    budget: u64,
}

// Written out, so that crates above drop it by one call.
impl Drop for Replays {
    fn drop(self) {
        let Replays { code: _, budget: _ } = self;
    }
}

impl Model for Replays {
    ghost use Rattle.std.specs.Arc.{arc_value};
    ghost use Rattle.replay_offers.specs.Programs.{IsRunnable, Program};

    ghost Value = { Program };

    ghost view = { λ r. record { nodes = arc_value r.code; budget = r.budget } };

    ghost invariant = { λ r. IsRunnable (record { nodes = arc_value r.code; budget = r.budget }) };
}

/// Where a run rests: its logs, and what could be entered next in one of them.
#[derive(Drop)]
pub struct Held {
    pub lists: Lists,
    pub entries: Vec<Reception>,
}

/// Whether nobody can go on.
fn has_ended(verdict: Verdict) -> bool
    ensures ended { result ≡ true → verdict_shape verdict ≡ Budget → ⊥ }
{
    match verdict {
        Verdict::End | Verdict::Blocked => true,
        Verdict::Budget => false,
    }
}

// What a population shows.
fn shown_by(alloc: Global, population: Population) -> Result<Outcome, AllocError>
    requires reached { IsReachedBySome population }
    ensures outcome { (program : Tree) (c : Configuration) →
        IsReachedPopulation population program c →
        IfOk result (λ o. outcome_shape o ≡ outcome_of c) }
{
    let end = population.end(alloc)?;
    Ok(end.into_outcome())
}

/// The logs of a population.
pub fn logs_of(alloc: Global, population: Population) -> Result<Lists, AllocError>
    requires reached { IsReachedBySome population }
    ensures lists { (program : Tree) (c : Configuration) →
        IsReachedPopulation population program c →
        IfOk result (λ l. lists_shape l ≡ lists_of c) }
{
    lists_in(alloc, &shown_by(alloc, population)?)
}

// The logs of a population, and what could be entered next in this one.
fn held_in(alloc: Global, population: Population, to: &ActivityName) -> Result<Held, AllocError>
    requires reached { IsReachedBySome population }
    ensures held { (program : Tree) (c : Configuration) →
        IsReachedPopulation population program c → IfOk result (IsHeld c to.now) }
{
    let entries = entries_at(alloc, &population, to)?;
    let lists = logs_of(alloc, population)?;
    Ok(Held { lists, entries })
}

impl Replays {
    /// Runs this program.
    pub fn new(alloc: Global, program: &Checked, budget: u64) -> Result<Replays, AllocError>
        requires within { budget ≤ MOST_REDUCTIONS }
        ensures program { IfOk result (λ r. tree_in r ≡ tree_of program.now.program.root) }
        ensures budget { IfOk result (λ r. r.budget ≡ budget) }
    {
        let code = Arc::new(alloc, compile(alloc, program)?)?;
        Ok(Replays { code, budget })
    }

    /// A machine at the start of the program.
    fn start(&self, alloc: Global, bounds: &Bounds) -> Result<Machine, AllocError>
        requires ascending { IsAscending bounds.now }
        ensures start { IfOk result
            (λ m. IsRunAt bounds.now m (tree_in self.now) (start_of (tree_in self.now))) }
        ensures order { IfOk result IsInOrder }
    {
        let code = self.code.clone()?;
        let machine = Machine::start(alloc, bounds, code)?;
        Ok(machine)
    }

    /// A machine where a run rests under logs and counts.
    fn rest(&self, alloc: Global, lists: &Lists, counts: &Counts) -> Result<Machine, AllocError>
        requires ordered { AreInOrder (lists_shape lists.now) (counts_shape counts.now) }
        requires within { total (counts_shape counts.now) ≤ MOST_REDUCTIONS }
        ensures rests { let c = replay_of (tree_in self.now)
            (lists_shape lists.now) (counts_shape counts.now) in
            IfOk result (λ m. IsReachedPopulation m.population (tree_in self.now) c) }
    {
        let bounds = Bounds::Listed(lists, counts);
        let mut machine = self.start(alloc, &bounds)?;
        machine.run(alloc, &bounds, total_of(counts), &mut NoNotes)?;
        Ok(machine)
    }

    /// Where a run rests under logs and counts, and what could be entered next in this log.
    pub fn held(
        &self,
        alloc: Global,
        lists: &Lists,
        counts: &Counts,
        to: &ActivityName,
    ) -> Result<Held, AllocError>
        requires ordered { AreInOrder (lists_shape lists.now) (counts_shape counts.now) }
        requires within { total (counts_shape counts.now) ≤ MOST_REDUCTIONS }
        ensures held { let c = replay_of (tree_in self.now)
            (lists_shape lists.now) (counts_shape counts.now) in
            IfOk result (IsHeld c to.now) }
    {
        let machine = self.rest(alloc, lists, counts)?;
        held_in(alloc, machine.into_population(), to)
    }

    /// The end of a run, with the states of its activities.
    pub fn replay(&self, alloc: Global, run: &EndedRun) -> Result<RunEnd, AllocError>
        requires run { IsReplayableEnd (tree_in self.now) (run_logs run.now) }
        ensures end { let c = replay_of (tree_in self.now)
            (run_logs run.now).0 (run_logs run.now).1 in
            IfOk result (λ r. IsEndOf r (whole_outcome_of c)) }
        ensures outcome { let c = replay_of (tree_in self.now)
            (run_logs run.now).0 (run_logs run.now).1 in
            IfOk result (λ r. outcome_shape r.outcome ≡ outcome_of c) }
    {
        let machine = self.rest(alloc, &run.lists, &run.counts)?;
        machine.into_population().end(alloc)
    }

    /// A run under logs as far as it goes, and then without logs.
    fn run_on(&self, alloc: Global, lists: &Lists, counts: &Counts) -> Result<Outcome, AllocError>
        requires ordered { AreInOrder (lists_shape lists.now) (counts_shape counts.now) }
        ensures run { IfOk result (λ o. IsFreeRun (tree_in self.now) (outcome_shape o)) }
    {
        let bounds = Bounds::Listed(lists, counts);
        let mut machine = self.start(alloc, &bounds)?;
        self.go_on(alloc, &mut machine, lists, counts)?;
        shown_by(alloc, machine.into_population())
    }

    // Such a run, from a machine at the start.
    fn go_on(
        &self,
        alloc: Global,
        machine: &mut Machine,
        lists: &Lists,
        counts: &Counts,
    ) -> Result<(), AllocError>
        requires ordered { AreInOrder (lists_shape lists.now) (counts_shape counts.now) }
        requires start { IsRunAt (bounds.Listed lists counts)
            machine.old (tree_in self.now) (start_of (tree_in self.now)) }
        requires order { IsInOrder machine.old }
        ensures run { IfOk result (λ _. IsFreePopulation (tree_in self.now) machine.new.population) }
    {
        let bounds = Bounds::Listed(lists, counts);
        machine.run(alloc, &bounds, self.budget, &mut NoNotes)?;
        machine.rouse(alloc)?;
        machine.run(
            alloc,
            &Bounds::Budget(self.budget),
            self.budget,
            &mut NoNotes,
        )
    }

    /// What a run left, if it ended within the budget.
    fn ended_run(&self, alloc: Global, outcome: &Outcome) -> Result<Option<EndedRun>, AllocError>
        requires run { IsFreeRun (tree_in self.now) (outcome_shape outcome.now) }
        ensures end { IfOk result (IsEnd (tree_in self.now)) }
    {
        if !has_ended(outcome.verdict) {
            return Ok(None);
        }
        let lists = lists_in(alloc, outcome)?;
        let counts = counts_in(alloc, outcome)?;
        if !are_replayable(&lists, &counts) {
            return Ok(None);
        }
        if total_of(&counts) > self.budget {
            return Ok(None);
        }
        Ok(Some(EndedRun { lists, counts }))
    }

    /// A run that begins with logs as far as it can, if it ends within the budget.
    pub fn end_from(&self, alloc: Global, lists: &Lists) -> Result<Option<EndedRun>, AllocError>
        ensures end { IfOk result (IsEnd (tree_in self.now)) }
    {
        let none = even_counts(alloc, lists, 0)?;
        if !are_replayable(lists, &none) {
            return Ok(None);
        }
        let counts = even_counts(alloc, lists, self.budget)?;
        let outcome = self.run_on(alloc, lists, &counts)?;
        self.ended_run(alloc, &outcome)
    }
}

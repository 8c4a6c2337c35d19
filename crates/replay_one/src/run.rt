//! The run of a program within a budget.

ghost use Rattle.std.specs.Prelude.{◌≡◌, ◌≤◌, ◌++◌, IfOk, List, OnOk};
ghost use Rattle.asp_model.specs.Term.{Tree};
ghost use Rattle.asp_model.specs.Configuration.{Configuration, start as start_of};
ghost use Rattle.asp_model.specs.Outcome.{counts_in, outcome_of as outcome_shown};
ghost use Rattle.asp_model.specs.Replay.{plain_run, steps_from, total as total_of};
ghost use Rattle.asp_model.specs.Shapes.{outcome_shape, tree_of};
ghost use Rattle.def_paths.specs.Outcomes.{whole_outcome_of};
ghost use Rattle.run_ends.specs.Ends.{IsEndOf};
ghost use Rattle.replay_parts.specs.Bounds.{IsAscending, count_within, lists_within};
ghost use Rattle.replay_one.specs.Correct.{IsReplayed, IsSpent};
ghost use Rattle.replay_population.specs.Reached.{IsReachedPopulation};
ghost use Rattle.replay_parts.specs.Listening.{AreToldPlaces};
ghost use Rattle.replay_parts.specs.Notes.{NoteShape};
ghost use Rattle.replay_one.specs.Round.{IsInOrder, IsRunAt, IsRunSomewhere};
ghost use Rattle.replay_one.specs.Told.{notes_by};

use crate::round::Machine;
use crate::telling::tell_places;
use asp_check::Checked;
use code_compiler::compile;
use replay_parts::{Bounds, NoNotes, Notes};
use run_ends::RunEnd;
use std::alloc::{AllocError, Global};
use std::sync::Arc;

impl Machine {
    /// Takes at most so many reductions, until nobody can take one.
    pub fn run<N: Notes>(
        &mut self,
        alloc: Global,
        bounds: &Bounds,
        total: u64,
        notes: &mut N,
    ) -> Result<(), AllocError>
        requires ascending { IsAscending bounds.now }
        requires running { IsRunSomewhere bounds.now self.old }
        requires order { IsInOrder self.old }
        ensures runs { (program : Tree) (c : Configuration) →
            IsRunAt bounds.now self.old program c →
            let d = steps_from total (lists_within bounds.now) (count_within bounds.now) c in
            OnOk result (IsReachedPopulation self.new.population program d) }
        ensures told { (program : Tree) (c : Configuration) (xs : List NoteShape) →
            IsRunAt bounds.now self.old program c → N.tells notes.old xs →
            OnOk result (N.tells notes.new (xs ++ notes_by bounds.now total c)) }
        ensures order { OnOk result (IsInOrder self.new) }
    {
        let mut left = total;
        while left > 0 {
            let Some(taken) = self.step(alloc, bounds, left, notes)? else {
                return Ok(());
            };
            left -= taken;
        }
        Ok(())
    }
}

/// Runs a program within bounds, with at most so many reductions in all.
pub fn run_within<N: Notes>(
    alloc: Global,
    program: &Checked,
    bounds: &Bounds,
    total: u64,
    notes: &mut N,
) -> Result<RunEnd, AllocError>
    requires ascending { IsAscending bounds.now }
    ensures end { let first = start_of (tree_of program.now.program.root) in
        let last = steps_from total (lists_within bounds.now) (count_within bounds.now) first in
        IfOk result (λ r. IsEndOf r (whole_outcome_of last)) }
    ensures outcome { let first = start_of (tree_of program.now.program.root) in
        let last = steps_from total (lists_within bounds.now) (count_within bounds.now) first in
        IfOk result (λ r. outcome_shape r.outcome ≡ outcome_shown last) }
    // The steps, and then where the activities stand.
    ensures told { (xs : List NoteShape) → N.tells notes.old xs →
        let first = start_of (tree_of program.now.program.root) in
        let last = steps_from total (lists_within bounds.now) (count_within bounds.now) first in
        OnOk result (AreToldPlaces (N.tells notes.new) (xs ++ notes_by bounds.now total first) last) }
{
    let code = Arc::new(alloc, compile(alloc, program)?)?;
    let mut machine = Machine::start(alloc, bounds, code)?;
    machine.run(alloc, bounds, total, notes)?;
    tell_places(alloc, &mut machine.population, notes)?;
    machine.into_population().end(alloc)
}

/// Runs a program with at most as many reductions as the budget says.
pub fn run_plain(alloc: Global, program: &Checked, budget: u64) -> Result<RunEnd, AllocError>
    // With the state of each activity, and the filled futures.
    ensures end { let last = plain_run budget (tree_of program.now.program.root) in
        IfOk result (λ r. IsEndOf r (whole_outcome_of last)) }
    ensures outcome { let last = plain_run budget (tree_of program.now.program.root) in
        IfOk result (λ r. outcome_shape r.outcome ≡ outcome_shown last) }
    ensures replays { IfOk result
        (λ r. IsReplayed (tree_of program.now.program.root) (outcome_shape r.outcome)) }
    ensures within { IfOk result (λ r. total_of (counts_in (outcome_shape r.outcome)) ≤ budget) }
    ensures spent { IfOk result (λ r. IsSpent budget (outcome_shape r.outcome)) }
{
    run_within(
        alloc,
        program,
        &Bounds::Budget(budget),
        budget,
        &mut NoNotes,
    )
}

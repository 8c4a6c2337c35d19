//! Lends that are redone.

ghost use Rattle.std.specs.Prelude.{◌≡◌, ◌++◌, ◌∷◌, [], ℕ, IfOk, List, OnOk, Some};
ghost use Rattle.asp_model.specs.Configuration.{Configuration};
ghost use Rattle.asp_model.specs.History.{EntryShape, Lent};
ghost use Rattle.asp_model.specs.Names.{Name};
ghost use Rattle.asp_model.specs.Status.{is_running, status_of};
ghost use Rattle.asp_model.specs.Term.{Tree};
ghost use Rattle.def_journals.specs.Journals.{RunShape, entered, number_of};
ghost use Rattle.replay_population.specs.Population.{IsClosedBySome, IsKnown, IsPopulation};
ghost use Rattle.journal_runs.specs.Runs.{IsRedone, IsRunOf, IsSomeRun, grant_at};
ghost use Rattle.journal_runs.specs.Grants.{IsFree, IsGranted};

use crate::runs::JournalRun;
use crate::stepping::can_step;
use asp_model::MOST_GRANTED;
use replay_population::Population;
use std::alloc::{AllocError, Global};

/// The grant of an activity, if it is out.
pub(crate) fn grant_of(grants: &[Option<u64>], number: u32) -> Option<u64>
    ensures grant { result ≡ grant_at grants.now number }
{
    match grants.get(number as usize) {
        Some(grant) => *grant,
        None => None,
    }
}

/// An activity goes out with a grant, or comes in.
pub(crate) fn set_grant(
    grants: &mut Vec<Option<u64>>,
    number: u32,
    grant: Option<u64>,
) -> Result<(), AllocError>
    ensures granted { OnOk result (IsGranted grants.old.items number grant grants.new.items) }
{
    while grants.len() <= number as usize {
        grants.push(None)?;
    }
    grants[number as usize] = grant;
    Ok(())
}

/// Whether an activity can step.
pub(crate) fn settled_runs(
    alloc: Global,
    population: &mut Population,
    number: u32,
) -> Result<bool, AllocError>
    requires closed { IsClosedBySome population.old }
    requires known { IsKnown population.old number }
    ensures runs { (c : Configuration) (n : Name) → IsPopulation population.old c →
        number_of n population.old.roster ≡ Some number →
        IfOk result (λ b. b ≡ is_running (status_of c n)) }
    ensures same { (c : Configuration) → IsPopulation population.old c →
        OnOk result (IsPopulation population.new c) }
    ensures roster { OnOk result (population.new.roster ≡ population.old.roster) }
{
    population.settle(number)?;
    can_step(alloc, population, number)
}

impl JournalRun {
    /// An activity that is in and can step goes out, if some budget is left. Whether it does.
    pub(crate) fn lend(&mut self, alloc: Global, number: u32) -> Result<bool, AllocError>
        requires run { IsSomeRun self.old }
        ensures lent { (program : Tree) (budget : ℕ) (entries : List EntryShape) (s : RunShape) →
            IsRunOf self.old program budget entries s → let e = Lent number in
            IfOk result (IsRedone self.new program budget (entries ++ e ∷ []) (entered e s)) }
    {
        if self.left == 0 {
            return Ok(false);
        }
        let free = self.is_in(number);
        if !free {
            return Ok(false);
        }
        let runs = settled_runs(alloc, &mut self.population, number)?;
        if !runs {
            return Ok(false);
        }
        let grant = self.left.min(MOST_GRANTED);
        set_grant(&mut self.grants, number, Some(grant))?;
        self.left -= grant;
        Ok(true)
    }

    /// Whether an activity has this number, and is in.
    pub(crate) fn is_in(&self, number: u32) -> bool
        ensures free { IsFree self.now number result }
    {
        if number as usize >= self.population.roster.len() {
            return false;
        }
        match grant_of(&self.grants, number) {
            Some(_) => false,
            None => true,
        }
    }
}

//! Where a run stands.

ghost use Rattle.std.specs.Prelude.{◌≡◌, ◌≤◌, ◌^◌, ℕ, IfOk, List, None, OnOk, length};
ghost use Rattle.std.specs.List.{list_any};
ghost use Rattle.asp_model.specs.History.{EntryShape};
ghost use Rattle.asp_model.specs.Status.{is_running, statuses_of};
ghost use Rattle.asp_model.specs.Term.{Tree};
ghost use Rattle.def_journals.specs.Journals.{RunShape};
ghost use Rattle.law_traces.specs.Standings.{standing_of};
ghost use Rattle.journal_runs.specs.Runs.{IsRunOf, IsSomeRun, IsStanding};
ghost use Rattle.journal_runs.specs.Grants.{IsLeastOut};

use crate::lends::{grant_of, settled_runs};
use crate::runs::JournalRun;
use std::alloc::{AllocError, Global};

/// Where a run stands that has redone a journal.
pub enum Standing {
    /// Some activity is out, and this is the least number of one.
    Out(u32),
    /// All are in, some activity can step, and some budget is left.
    Unfinished,
    /// All are in, and nobody goes on.
    Ended,
}

/// The least number under which something is granted.
fn first_out(grants: &[Option<u64>]) -> Option<u32>
    requires few { length grants.now ≤ 2 ^ 32 }
    ensures first { IsLeastOut grants.now result }
{
    for number in 0..grants.len() {
        let out = grant_of(grants, number as u32).is_some();
        if out {
            return Some(number as u32);
        }
    }
    None
}

impl JournalRun {
    /// Where the run stands, whatever edges are owed.
    pub fn standing(&mut self, alloc: Global) -> Result<Standing, AllocError>
        requires run { IsSomeRun self.old }
        ensures standing { (program : Tree) (budget : ℕ) (entries : List EntryShape)
            (s : RunShape) → IsRunOf self.old program budget entries s →
            IfOk result (IsStanding (standing_of s)) }
        ensures same { (program : Tree) (budget : ℕ) (entries : List EntryShape) (s : RunShape) →
            IsRunOf self.old program budget entries s →
            OnOk result (IsRunOf self.new program budget entries s) }
    {
        match first_out(&self.grants) {
            Some(number) => Ok(Standing::Out(number)),
            None => self.at_home(alloc),
        }
    }

    /// Where it stands, if nobody is out.
    fn at_home(&mut self, alloc: Global) -> Result<Standing, AllocError>
        requires run { IsSomeRun self.old }
        requires home { IsLeastOut self.old.grants.items None }
        ensures standing { (program : Tree) (budget : ℕ) (entries : List EntryShape)
            (s : RunShape) → IsRunOf self.old program budget entries s →
            IfOk result (IsStanding (standing_of s)) }
        ensures same { (program : Tree) (budget : ℕ) (entries : List EntryShape) (s : RunShape) →
            IsRunOf self.old program budget entries s →
            OnOk result (IsRunOf self.new program budget entries s) }
    {
        if self.left == 0 {
            return Ok(Standing::Ended);
        }
        let runs = self.any_runs(alloc)?;
        if runs {
            return Ok(Standing::Unfinished);
        }
        Ok(Standing::Ended)
    }

    /// Whether some activity can step.
    fn any_runs(&mut self, alloc: Global) -> Result<bool, AllocError>
        requires run { IsSomeRun self.old }
        ensures runs { (program : Tree) (budget : ℕ) (entries : List EntryShape) (s : RunShape) →
            IsRunOf self.old program budget entries s →
            IfOk result (λ b. b ≡ list_any is_running (statuses_of s.configuration)) }
        ensures same { (program : Tree) (budget : ℕ) (entries : List EntryShape) (s : RunShape) →
            IsRunOf self.old program budget entries s →
            OnOk result (IsRunOf self.new program budget entries s) }
    {
        for number in 0..self.population.roster.len() as u32 {
            let runs = settled_runs(alloc, &mut self.population, number)?;
            if runs {
                return Ok(true);
            }
        }
        Ok(false)
    }
}

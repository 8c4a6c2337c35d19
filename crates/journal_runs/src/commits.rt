//! Commits that are redone.

ghost use Rattle.std.specs.Prelude.{◌++◌, ◌∷◌, [], ℕ, IfOk, List};
ghost use Rattle.asp_model.specs.History.{Committed, EntryShape};
ghost use Rattle.asp_model.specs.Term.{Tree};
ghost use Rattle.def_journals.specs.Journals.{RunShape, entered};
ghost use Rattle.journal_runs.specs.Runs.{IsRedone, IsRunOf, IsSomeRun};

use crate::lends::{grant_of, set_grant};
use crate::reducing::reduce;
use crate::runs::JournalRun;
use std::alloc::{AllocError, Global};

impl JournalRun {
    /// An activity that is out takes so many reductions, and comes in. Whether it can.
    pub(crate) fn commit(
        &mut self,
        alloc: Global,
        number: u32,
        reductions: u64,
    ) -> Result<bool, AllocError>
        requires run { IsSomeRun self.old }
        ensures committed { (program : Tree) (budget : ℕ) (entries : List EntryShape)
            (s : RunShape) → IsRunOf self.old program budget entries s →
            let e = Committed number reductions in
            IfOk result (IsRedone self.new program budget (entries ++ e ∷ []) (entered e s)) }
    {
        if number as usize >= self.population.roster.len() {
            return Ok(false);
        }
        let Some(grant) = grant_of(&self.grants, number) else {
            return Ok(false);
        };
        if reductions > grant {
            return Ok(false);
        }
        let reduced = reduce(alloc, &mut self.population, number, reductions)?;
        if !reduced {
            return Ok(false);
        }
        set_grant(&mut self.grants, number, None)?;
        self.left += grant - reductions;
        Ok(true)
    }
}

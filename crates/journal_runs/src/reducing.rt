//! The reductions of a commit that is redone.

ghost use Rattle.std.specs.Prelude.{◌≡◌, ◌<◌, IfOk};
ghost use Rattle.asp_model.specs.Configuration.{Configuration};
ghost use Rattle.asp_model.specs.Names.{Name};
ghost use Rattle.asp_model.specs.Term.{Tree};
ghost use Rattle.def_journals.specs.Journals.{reduced};
ghost use Rattle.journal_runs.specs.Reducing.{IsAdvanced, IsReduced};
ghost use Rattle.journal_runs.specs.Stepping.{IsReducing, IsReducingSome};

use crate::stepping::step;
use replay_population::Population;
use std::alloc::{AllocError, Global};

/// An activity takes contractions, and one step more if reductions are left then. How many are left
/// after that; none if there is no such step.
fn advance(
    alloc: Global,
    population: &mut Population,
    number: u32,
    reductions: u64,
) -> Result<Option<u64>, AllocError>
    requires reducing { IsReducingSome population.old number }
    requires some { 0 < reductions }
    ensures advanced { (program : Tree) (c : Configuration) (n : Name) →
        IsReducing population.old program c number n → let ns = population.old.roster in
        IfOk result (IsAdvanced population.new program ns c number n reductions) }
{
    let taken = population.run(alloc, number, reductions, u64::MAX)?;
    let left = reductions - taken;
    if left == 0 {
        return Ok(Some(0));
    }
    let stepped = step(alloc, population, number, left > 1)?;
    if !stepped {
        return Ok(None);
    }
    Ok(Some(left - 1))
}

/// An activity takes so many reductions, of which only the last may be a communication. Whether it
/// can.
pub(crate) fn reduce(
    alloc: Global,
    population: &mut Population,
    number: u32,
    reductions: u64,
) -> Result<bool, AllocError>
    requires reducing { IsReducingSome population.old number }
    ensures reduced { (program : Tree) (c : Configuration) (n : Name) →
        IsReducing population.old program c number n → let ns = population.old.roster in
        let end = reduced reductions n c in
        IfOk result (IsReduced population.new program ns c end) }
{
    let mut left = reductions;
    while left > 0 {
        let Some(rest) = advance(alloc, population, number, left)? else {
            return Ok(false);
        };
        left = rest;
    }
    Ok(true)
}

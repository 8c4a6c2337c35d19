//! Copies of logs and of ended runs.

ghost use Rattle.std.specs.Prelude.{◌≡◌, IfOk, map};
ghost use Rattle.asp_model.specs.Shapes.{counts_shape, lists_shape, reception_shape};
ghost use Rattle.outcome_search.specs.Ends.{run_logs};

use crate::runs::EndedRun;
use asp_model::{ActivityName, Counts, Lists, Reception};
use std::alloc::{AllocError, Global};

/// The same entry of a log.
pub fn copy_reception(alloc: Global, reception: &Reception) -> Result<Reception, AllocError>
    ensures same { IfOk result (λ x. reception_shape x ≡ reception_shape reception.now) }
{
    match reception {
        Reception::From(sender) => Ok(Reception::From(sender.copy(alloc)?)),
        Reception::Poll => Ok(Reception::Poll),
    }
}

/// The same log.
pub fn copy_log(alloc: Global, log: &[Reception]) -> Result<Vec<Reception>, AllocError>
    ensures same { IfOk result (λ v. map reception_shape v.items ≡ map reception_shape log.now) }
{
    let mut copies = Vec::new(alloc);
    for reception in log {
        copies.push(copy_reception(alloc, reception)?)?;
    }
    Ok(copies)
}

/// The same logs.
pub fn copy_lists(alloc: Global, lists: &Lists) -> Result<Lists, AllocError>
    ensures same { IfOk result (λ l. lists_shape l ≡ lists_shape lists.now) }
{
    let mut entries: Vec<(ActivityName, Vec<Reception>)> = Vec::new(alloc);
    for entry in &lists.entries {
        let log = copy_log(alloc, &entry.1)?;
        entries.push((entry.0.copy(alloc)?, log))?;
    }
    Ok(Lists { entries })
}

fn copy_counts(alloc: Global, counts: &Counts) -> Result<Counts, AllocError>
    ensures same { IfOk result (λ c. counts_shape c ≡ counts_shape counts.now) }
{
    let mut entries: Vec<(ActivityName, u64)> = Vec::new(alloc);
    for entry in &counts.entries {
        entries.push((entry.0.copy(alloc)?, entry.1))?;
    }
    Ok(Counts { entries })
}

/// The same run.
pub fn copy_run(alloc: Global, run: &EndedRun) -> Result<EndedRun, AllocError>
    ensures same { IfOk result (λ s. run_logs s ≡ run_logs run.now) }
{
    Ok(EndedRun {
        lists: copy_lists(alloc, &run.lists)?,
        counts: copy_counts(alloc, &run.counts)?,
    })
}

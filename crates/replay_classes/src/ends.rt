//! Ends by classes.

ghost use Rattle.std.specs.Prelude.{IfOk, IfSome};
ghost use Rattle.asp_model.specs.Shapes.{services_shape, tree_of};
ghost use Rattle.law_services.specs.Told.{AreServicesOf};
ghost use Rattle.class_search.specs.Found.{IsFoundEnd};
ghost use Rattle.outcome_search.specs.Ends.{IsReplayableEnd, run_logs};
ghost use Rattle.replay_classes.specs.Classes.{class_in};

use crate::classes::Classes;
use crate::sendings::rows_of;
use crate::services::{ask_in_classes, nobody_polls, sendings_of};
use asp_check::Checked;
use asp_model::{Lists, Services};
use class_search::FoundEnd;
use outcome_search::EndedRun;
use replay_one::ReplayStop;
use replay_services::replay_services;
use std::alloc::{AllocError, Global};

/// Why nothing is told of a run.
#[derive(Drop)]
pub enum Halt {
    /// A run that begins with these logs did not end within the budget.
    Unended(Lists),
    /// Of the labels that came and were asked for, some have no classes yet.
    Learns(Services),
    /// Somebody polled, or the run went elsewhere than it was led.
    Untold,
}

/// What the services of an ended run could take; none if it is none of the program.
fn services_of(
    alloc: Global,
    program: &Checked,
    run: &EndedRun,
) -> Result<Option<Services>, AllocError>
    requires end { IsReplayableEnd (tree_of program.now.program.root) (run_logs run.now) }
    ensures services { IfOk result (λ o. IfSome o (λ s. AreServicesOf
        (tree_of program.now.program.root)
        (run_logs run.now).0 (run_logs run.now).1 (services_shape s))) }
{
    match replay_services(alloc, program, &run.lists, &run.counts) {
        Ok(told) => Ok(Some(told.services)),
        Err(ReplayStop::Diverged { .. }) => Ok(None),
        Err(ReplayStop::Memory) => Err(AllocError),
    }
}

/// An ended run as an end by classes.
pub fn found_end(
    alloc: Global,
    program: &Checked,
    classes: &Classes,
    run: EndedRun,
) -> Result<Result<FoundEnd, Halt>, AllocError>
    requires end { IsReplayableEnd (tree_of program.now.program.root) (run_logs run) }
    ensures end { let tree = tree_of program.now.program.root in
        IfOk result (λ r. IfOk r (IsFoundEnd (class_in classes.now) tree)) }
{
    let Some(services) = services_of(alloc, program, &run)? else {
        return Ok(Err(Halt::Untold));
    };
    if !nobody_polls(&services) {
        return Ok(Err(Halt::Untold));
    }
    if !classes.know(&services) || !ask_in_classes(classes, &services) {
        return Ok(Err(Halt::Learns(services)));
    }
    let sendings = sendings_of(alloc, classes, &services)?;
    let logs = rows_of(alloc, &sendings)?;
    Ok(Ok(FoundEnd {
        run,
        logs,
        sendings,
    }))
}

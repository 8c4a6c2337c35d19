//! The replay that keeps what its services could take.

ghost use Rattle.std.specs.Prelude.{◌≡◌, IfErr, IfOk};
ghost use Rattle.asp_model.specs.Outcome.{outcome_of};
ghost use Rattle.asp_model.specs.Replay.{Fits, replay as replay_of};
ghost use Rattle.asp_model.specs.Shapes.{counts_shape, lists_shape, outcome_shape, services_shape, tree_of};
ghost use Rattle.law_services.specs.Told.{AreServicesOf};
ghost use Rattle.replay_one.specs.Correct.{IsStop};
ghost use Rattle.replay_one.specs.Listed.{AreReplayable};

use crate::listener::Listener;
use asp_check::Checked;
use asp_model::{Counts, Lists, Outcome, Services};
use replay_one::{ReplayStop, replay_noting};
use std::alloc::Global;

/// What a replay leaves, and what its services could take.
#[derive(Drop)]
pub struct ServicesRun {
    pub outcome: Outcome,
    pub services: Services,
}

/// Replays a run of a program from its logs and its counts, and keeps for each activity which
/// requests came, whether it polled, and the labels of its services, each set once.
pub fn replay_services(
    alloc: Global,
    program: &Checked,
    lists: &Lists,
    counts: &Counts,
) -> Result<ServicesRun, ReplayStop>
    requires replayable { AreReplayable (lists_shape lists.now) (counts_shape counts.now) }
    ensures fits { IfOk result (λ r. Fits (tree_of program.now.program.root)
        (lists_shape lists.now) (counts_shape counts.now)) }
    ensures outcome { let last = replay_of (tree_of program.now.program.root)
        (lists_shape lists.now) (counts_shape counts.now) in
        IfOk result (λ r. outcome_shape r.outcome ≡ outcome_of last) }
    ensures services { IfOk result (λ r. AreServicesOf (tree_of program.now.program.root)
        (lists_shape lists.now) (counts_shape counts.now) (services_shape r.services)) }
    ensures diverged { IfErr result (IsStop (tree_of program.now.program.root)
        (lists_shape lists.now) (counts_shape counts.now)) }
{
    let mut listener = Listener::new(alloc, lists)?;
    let end = replay_noting(alloc, program, lists, counts, &mut listener)?;
    let services = listener.into_services(alloc)?;
    Ok(ServicesRun {
        outcome: end.into_outcome(),
        services,
    })
}

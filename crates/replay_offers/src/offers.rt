//! The runs of a program for the search.

ghost use Rattle.std.specs.Prelude.{◌≡◌, IfOk, map};
ghost use Rattle.asp_model.specs.Configuration.{ReceptionShape};
ghost use Rattle.asp_model.specs.Shapes.{lists_shape};
ghost use Rattle.outcome_search.specs.Ends.{IsEnd, IsEndFrom, IsReplayableEnd, run_logs};
ghost use Rattle.outcome_search.specs.Found.{HasOffers};
ghost use Rattle.replay_offers.specs.Entries.{HasEntry};
ghost use Rattle.replay_offers.specs.Logs.{each_entered};
ghost use Rattle.replay_offers.specs.Offered.{HasEntered};
ghost use Rattle.replay_offers.specs.Programs.{tree_in};

use crate::logs::{cut_at, with_entry};
use crate::replays::{Held, Replays};
use asp_model::{ActivityName, Lists};
use outcome_search::{EndedRun, Runs, begin_with};
use std::alloc::{AllocError, Global};

/// The logs, with each of the entries in turn in that of an activity.
fn with_each(alloc: Global, held: &Held, to: &ActivityName) -> Result<Vec<Lists>, AllocError>
    ensures each { (entry : ReceptionShape) → HasEntry held.now.entries.items entry →
        let entered = each_entered to.now entry (lists_shape held.now.lists) in
        IfOk result (λ v. HasEntered (map lists_shape v.items) entered) }
{
    let mut offers = Vec::new(alloc);
    for entry in &held.entries {
        offers.push(with_entry(alloc, &held.lists, to, entry)?)?;
    }
    Ok(offers)
}

impl Runs for Replays {
    ghost program = { tree_in };

    fn offers(
        &self,
        alloc: Global,
        run: &EndedRun,
        to: &ActivityName,
        place: usize,
    ) -> Result<Vec<Lists>, AllocError> {
        let cut = cut_at(alloc, &run.lists, to, place)?;
        let held = self.held(alloc, &cut, &run.counts, to)?;
        with_each(alloc, &held, to)
    }

    fn ended(&self, alloc: Global, lists: &Lists) -> Result<Option<EndedRun>, AllocError> {
        match self.end_from(alloc, lists)? {
            Some(run) if begin_with(&run.lists, lists) => Ok(Some(run)),
            _ => Ok(None),
        }
    }

    fn first(&self, alloc: Global) -> Result<Option<EndedRun>, AllocError> {
        let entries = Vec::new(alloc);
        self.end_from(alloc, &Lists { entries })
    }
}

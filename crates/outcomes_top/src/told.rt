//! Runs of a program, where it is told how far a search over them is.

ghost use Rattle.replay_offers.specs.Programs.{tree_in};

use asp_model::{ActivityName, Lists};
use end_search::{Progress, ProgressBox};
use outcome_search::{EndedRun, Runs};
use replay_offers::Replays;
use std::alloc::{AllocError, Global};

/// Runs of a program, and what is told.
#[derive(Drop)]
pub struct ToldRuns<'a> {
    pub runs: &'a Replays,
    pub progress: &'a ProgressBox,
}

impl Runs for ToldRuns<'_> {
    ghost program = { λ r. tree_in r.runs.now };

    fn offers(
        &self,
        alloc: Global,
        run: &EndedRun,
        to: &ActivityName,
        place: usize,
    ) -> Result<Vec<Lists>, AllocError> {
        self.runs.offers(alloc, run, to, place)
    }

    fn ended(&self, alloc: Global, lists: &Lists) -> Result<Option<EndedRun>, AllocError> {
        self.runs.ended(alloc, lists)
    }

    fn first(&self, alloc: Global) -> Result<Option<EndedRun>, AllocError> {
        self.runs.first(alloc)
    }

    fn told(&mut self, ends: usize, done: usize) {
        self.progress.told(ends, done)
    }
}

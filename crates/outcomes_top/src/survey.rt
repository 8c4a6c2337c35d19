//! What all ends come to: their outcomes, the longest, and the worst status.

ghost use Rattle.std.specs.Prelude.{◌≡◌, ◌<◌, ◌-◌, ◌^◌, ℕ, [], IfOk, OnOk, Option, Some, length, map, max, slice_get};
ghost use Rattle.asp_model.specs.Term.{Tree};
ghost use Rattle.outcome_search.specs.Ends.{AreReplayableEnds, IsReplayableEnd, run_logs};
ghost use Rattle.outcomes_text.specs.Tallies.{AreWithin};
ghost use Rattle.replay_offers.specs.Programs.{tree_in};
ghost use Rattle.outcomes_top.specs.Surveys.{IsOneMore, IsSurvey};

use asp_model::exit_number;
use outcome_search::EndedRun;
use outcomes_text::{Tally, seen_of};
use replay_offers::{Replays, total_of};
use std::alloc::{AllocError, Global};

/// What ends come to.
#[derive(Drop)]
pub struct Survey {
    pub tally: Tally,
    /// The reductions of the longest of them.
    pub longest: u64,
    /// The greatest of their statuses.
    pub worst: u8,
}

fn longer(count: u64, other: u64) -> u64
    ensures { result ≡ max count other }
{
    if count < other { other } else { count }
}

fn worse(status: u8, other: u8) -> u8
    ensures { result ≡ max status other }
{
    if status < other { other } else { status }
}

impl Survey {
    /// No end.
    fn none(alloc: Global) -> Survey
        ensures none { (depth : Option ℕ) (program : Tree) → IsSurvey depth program [] result }
    {
        let tally = Tally::new(alloc);
        Survey {
            tally,
            longest: 0,
            worst: 0,
        }
    }

    /// One end more, by its number from 0.
    fn add(
        &mut self,
        alloc: Global,
        runs: &Replays,
        end: &EndedRun,
        number: usize,
        depth: Option<u32>,
    ) -> Result<(), AllocError>
        requires end { IsReplayableEnd (tree_in runs.now) (run_logs end.now) }
        requires within { AreWithin number self.old.tally }
        requires room { number < 2 ^ 64 - 1 }
        ensures more { OnOk result
            (IsOneMore depth (tree_in runs.now) number (run_logs end.now) self.old self.new) }
    {
        let run = runs.replay(alloc, end)?;
        let text = seen_of(alloc, &run, depth)?;
        self.tally.add(number, text)?;
        self.longest = longer(self.longest, total_of(&end.counts));
        self.worst = worse(self.worst, exit_number(&run.outcome));
        Ok(())
    }
}

/// The end of a number, from 0.
pub fn end_at(ends: &[EndedRun], number: usize) -> &EndedRun
    requires within { number < length ends.now }
    ensures end { slice_get ends.now number ≡ Some result.now }
{
    &ends[number]
}

/// What these ends come to.
pub fn survey_of(
    alloc: Global,
    runs: &Replays,
    ends: &[EndedRun],
    depth: Option<u32>,
) -> Result<Survey, AllocError>
    requires ends { AreReplayableEnds (tree_in runs.now) (map run_logs ends.now) }
    ensures survey { IfOk result (IsSurvey depth (tree_in runs.now) (map run_logs ends.now)) }
{
    let mut survey = Survey::none(alloc);
    for number in 0..ends.len() {
        let end = end_at(ends, number);
        survey.add(alloc, runs, end, number, depth)?;
    }
    Ok(survey)
}

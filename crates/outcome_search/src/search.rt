//! The search.

ghost use Rattle.std.specs.Prelude.{◌≡◌, ◌≤◌, ◌↔◌, IfOk, IsTrue, OnOk, length, map};
ghost use Rattle.asp_model.specs.Shapes.{lists_shape};
ghost use Rattle.law_families.specs.Families.{IsComplete, IsWithin};
ghost use Rattle.outcome_search.specs.Ends.{AreReplayableEnds, IsReplayableEnd, run_logs};
ghost use Rattle.outcome_search.specs.Found.{AreClosed, AreDistinct, AreFound, AreWithin, Grows, IfComplete, IfMost, IsClosedAt, IsClosedIn};

use crate::copies::{copy_lists, copy_run};
use crate::logs::{begin_with, log_of};
use crate::places::open_places;
use crate::runs::{EndedRun, Found, Runs, Stop};
use asp_model::{ActivityName, Lists};
use std::alloc::{AllocError, Global};

/// Whether the logs of one of the runs begin with these.
fn is_within(ends: &[EndedRun], lists: &Lists) -> bool
    ensures within { IsTrue result ↔ IsWithin (map run_logs ends.now) (lists_shape lists.now) }
{
    for end in ends {
        if begin_with(&end.lists, lists) {
            return true;
        }
    }
    false
}

/// The logs of one of the ends begin with these from now on.
fn meet<R: Runs>(
    alloc: Global,
    runs: &R,
    ends: &mut Vec<EndedRun>,
    lists: &Lists,
    most: usize,
) -> Result<Stop, AllocError>
    requires found { AreFound (R.program runs.now) most (map run_logs ends.old.items) }
    ensures found { OnOk result
        (AreFound (R.program runs.now) most (map run_logs ends.new.items)) }
    ensures grows { OnOk result
        (Grows (map run_logs ends.old.items) (map run_logs ends.new.items)) }
    ensures within { IfOk result (IfComplete
        (IsWithin (map run_logs ends.new.items) (lists_shape lists.now))) }
    ensures full { IfOk result (IfMost (most ≤ length ends.new.items)) }
{
    if is_within(ends, lists) {
        return Ok(Stop::Complete);
    }
    if ends.len() >= most {
        return Ok(Stop::Most);
    }
    match runs.ended(alloc, lists)? {
        Some(end) => {
            ends.push(end)?;
            Ok(Stop::Complete)
        }
        None => Ok(Stop::Unended(copy_lists(alloc, lists)?)),
    }
}

/// The same for each of some logs.
fn meet_all<R: Runs>(
    alloc: Global,
    runs: &R,
    ends: &mut Vec<EndedRun>,
    offers: &[Lists],
    most: usize,
) -> Result<Stop, AllocError>
    requires found { AreFound (R.program runs.now) most (map run_logs ends.old.items) }
    ensures found { OnOk result
        (AreFound (R.program runs.now) most (map run_logs ends.new.items)) }
    ensures grows { OnOk result
        (Grows (map run_logs ends.old.items) (map run_logs ends.new.items)) }
    ensures within { IfOk result (IfComplete
        (AreWithin (map run_logs ends.new.items) (map lists_shape offers.now))) }
    ensures full { IfOk result (IfMost (most ≤ length ends.new.items)) }
{
    for lists in offers {
        match meet(alloc, runs, ends, lists, most)? {
            Stop::Complete => {}
            stop => return Ok(stop),
        }
    }
    Ok(Stop::Complete)
}

/// Whatever could be entered in a log of a run leads to one of the ends.
fn close_log<R: Runs>(
    alloc: Global,
    runs: &R,
    ends: &mut Vec<EndedRun>,
    run: &EndedRun,
    to: &ActivityName,
    most: usize,
) -> Result<Stop, AllocError>
    requires run { IsReplayableEnd (R.program runs.now) (run_logs run.now) }
    requires found { AreFound (R.program runs.now) most (map run_logs ends.old.items) }
    ensures found { OnOk result
        (AreFound (R.program runs.now) most (map run_logs ends.new.items)) }
    ensures grows { OnOk result
        (Grows (map run_logs ends.old.items) (map run_logs ends.new.items)) }
    ensures closed { IfOk result (IfComplete (IsClosedAt
        (R.program runs.now) (map run_logs ends.new.items) (run_logs run.now) to.now)) }
    ensures full { IfOk result (IfMost (most ≤ length ends.new.items)) }
{
    let places = open_places(log_of(&run.lists, to));
    let offers = runs.offers_at_all(alloc, run, to, places)?;
    meet_all(alloc, runs, ends, &offers, most)
}

/// The same in each log of a run.
fn close_run<R: Runs>(
    alloc: Global,
    runs: &R,
    ends: &mut Vec<EndedRun>,
    run: &EndedRun,
    most: usize,
) -> Result<Stop, AllocError>
    requires run { IsReplayableEnd (R.program runs.now) (run_logs run.now) }
    requires found { AreFound (R.program runs.now) most (map run_logs ends.old.items) }
    ensures found { OnOk result
        (AreFound (R.program runs.now) most (map run_logs ends.new.items)) }
    ensures grows { OnOk result
        (Grows (map run_logs ends.old.items) (map run_logs ends.new.items)) }
    ensures closed { IfOk result (IfComplete (let x = run_logs run.now in
        IsClosedIn (R.program runs.now) (map run_logs ends.new.items) x x.0)) }
    ensures full { IfOk result (IfMost (most ≤ length ends.new.items)) }
{
    for entry in &run.lists.entries {
        match close_log(alloc, runs, ends, run, &entry.0, most)? {
            Stop::Complete => {}
            stop => return Ok(stop),
        }
    }
    Ok(Stop::Complete)
}

/// The same in each log of each end, those too that are found meanwhile.
fn close_all<R: Runs>(
    alloc: Global,
    runs: &mut R,
    ends: &mut Vec<EndedRun>,
    most: usize,
) -> Result<Stop, AllocError>
    requires found { AreFound (R.program runs.old) most (map run_logs ends.old.items) }
    ensures program { R.program runs.new ≡ R.program runs.old }
    ensures found { OnOk result
        (AreFound (R.program runs.old) most (map run_logs ends.new.items)) }
    ensures grows { OnOk result
        (Grows (map run_logs ends.old.items) (map run_logs ends.new.items)) }
    ensures closed { IfOk result (IfComplete (let all = map run_logs ends.new.items in
        AreClosed (R.program runs.old) all all)) }
    ensures full { IfOk result (IfMost (most ≤ length ends.new.items)) }
{
    for done in 0..most {
        if done >= ends.len() {
            return Ok(Stop::Complete);
        }
        runs.told(ends.len(), done);
        let run = copy_run(alloc, &ends[done])?;
        match close_run(alloc, runs, ends, &run, most)? {
            Stop::Complete => {}
            stop => return Ok(stop),
        }
    }
    Ok(Stop::Complete)
}

/// The ends of a program's runs, at most so many.
pub fn all_ends<R: Runs>(alloc: Global, runs: &mut R, most: usize) -> Result<Found, AllocError>
    ensures program { R.program runs.new ≡ R.program runs.old }
    ensures found { IfOk result (λ f.
        AreFound (R.program runs.old) most (map run_logs f.ends.items)) }
    ensures distinct { IfOk result (λ f. AreDistinct (map run_logs f.ends.items)) }
    ensures complete { IfOk result (λ f.
        IfComplete (IsComplete (R.program runs.old) (map run_logs f.ends.items)) f.stop) }
    ensures full { IfOk result (λ f. IfMost (most ≤ length f.ends.items) f.stop) }
{
    let mut ends: Vec<EndedRun> = Vec::new(alloc);
    if most == 0 {
        return Ok(Found {
            ends,
            stop: Stop::Most,
        });
    }
    let Some(end) = runs.first(alloc)? else {
        let entries = Vec::new(alloc);
        return Ok(Found {
            ends,
            stop: Stop::Unended(Lists { entries }),
        });
    };
    ends.push(end)?;
    let stop = close_all(alloc, runs, &mut ends, most)?;
    Ok(Found { ends, stop })
}

/// Whether these ends are all; none is added.
pub fn check_ends<R: Runs>(
    alloc: Global,
    runs: &mut R,
    ends: Vec<EndedRun>,
) -> Result<Found, AllocError>
    requires ends { AreReplayableEnds (R.program runs.old) (map run_logs ends.items) }
    ensures program { R.program runs.new ≡ R.program runs.old }
    ensures same { IfOk result (λ f. map run_logs f.ends.items ≡ map run_logs ends.items) }
    ensures complete { IfOk result (λ f.
        IfComplete (IsComplete (R.program runs.old) (map run_logs ends.items)) f.stop) }
{
    let mut ends = ends;
    let most = ends.len();
    if most == 0 {
        return Ok(Found {
            ends,
            stop: Stop::Most,
        });
    }
    let stop = close_all(alloc, runs, &mut ends, most)?;
    Ok(Found { ends, stop })
}

//! A report that is cut back to an earlier point of its run.

ghost use Rattle.std.specs.Prelude.{IfErr, IfOk};
ghost use Rattle.asp_model.specs.Shapes.{counts_shape, lists_shape, tree_of};
ghost use Rattle.replay_one.specs.Listed.{AreReplayable};
ghost use Rattle.asp_explain.specs.Refusals.{refusal_of};
ghost use Rattle.asp_explain.specs.Seen.{outside};
ghost use Rattle.asp_explain.specs.Given.{StopsCut};
ghost use Rattle.asp_explain.specs.OfUntil.{IsCutTold, StopsUntil, TellsUntil};

use crate::answer::{Answer, answer_with};
use crate::loading::{Given, Loaded, load};
use crate::stop::Stop;
use asp_edge::Source;
use run_waits::cut_report;
use std::alloc::Global;

/// The report cut back to the least point at which an activity has made so many reductions.
pub fn of_until<'a, S: Source>(
    alloc: Global,
    file: &'a str,
    report: &'a str,
    activity: &'a str,
    count: u64,
    source: &mut S,
) -> Result<Answer, Stop<'a>>
    ensures answer { IfOk result (λ a. TellsUntil (outside S.told source) file.entry.now
        report.entry.now activity.entry.now count a.text.items a.status) }
    ensures stop { IfErr result (λ s. StopsUntil (outside S.told source) file.entry.now
        report.entry.now activity.entry.now count (refusal_of s)) }
{
    match load(alloc, file, report, source)? {
        Loaded::Faulty(answer) => Ok(answer),
        Loaded::Given(given) => {
            let told = cut(alloc, &given, activity, count);
            given.discard();
            told
        }
    }
}

fn cut<'a>(
    alloc: Global,
    given: &Given<'_>,
    activity: &'a str,
    count: u64,
) -> Result<Answer, Stop<'a>>
    requires replayable { AreReplayable (lists_shape given.now.lists)
        (counts_shape given.now.counts) }
    ensures told { let tree = tree_of given.now.program.program.root in
        let lists = lists_shape given.now.lists in let counts = counts_shape given.now.counts in
        IfOk result (λ a.
        IsCutTold tree lists counts activity.entry.now count a.text.items a.status) }
    ensures stop { let tree = tree_of given.now.program.program.root in
        let lists = lists_shape given.now.lists in let counts = counts_shape given.now.counts in
        IfErr result (λ s. StopsCut tree lists counts activity.entry.now count (refusal_of s)) }
{
    match cut_report(
        alloc,
        &given.program,
        &given.lists,
        &given.counts,
        activity,
        count,
    ) {
        Ok(text) => Ok(answer_with(text)),
        Err(stop) => Err(Stop::of_cut(activity, count, stop)),
    }
}

//! A run beside another one.

ghost use Rattle.std.specs.Prelude.{◌≡◌, IfErr, IfOk, map};
ghost use Rattle.asp_model.specs.Shapes.{counts_shape, lists_shape, tree_of};
ghost use Rattle.explain.specs.OrderKept.{entry_shape};
ghost use Rattle.replay_one.specs.Listed.{AreReplayable};
ghost use Rattle.asp_explain.specs.Refusals.{refusal_of};
ghost use Rattle.asp_explain.specs.Seen.{outside};
ghost use Rattle.asp_explain.specs.Given.{StopsReplay};
ghost use Rattle.asp_explain.specs.Tasks.{whole_run as the_whole_run};
ghost use Rattle.asp_explain.specs.OfPicture.{StopsAtPicture};
ghost use Rattle.asp_explain.specs.OfOther.{IsCompared, IsOrdered, IsOtherTold, StopsCompared, StopsOther, StopsPictured, TellsOfOther};

use crate::answer::{Answer, answer_with};
use crate::loading::{Given, Loaded, lists_of, load};
use crate::of_events::seen;
use crate::of_picture::picture_of;
use crate::stop::{Stop, Which};
use crate::task::whole_run;
use asp_edge::Source;
use asp_model::{Counts, Lists};
use explain::{Comparison, OrderedRun, compare, ordered_run, tell_difference};
use std::alloc::Global;

/// What there is to tell of the run that a report shows, beside that of another report.
pub fn of_other<'a, S: Source>(
    alloc: Global,
    file: &'a str,
    report: &'a str,
    other: &'a str,
    picture: bool,
    source: &mut S,
) -> Result<Answer, Stop<'a>>
    ensures answer { IfOk result (λ a. TellsOfOther (outside S.told source)
        file.entry.now report.entry.now other.entry.now a.text.items a.status) }
    ensures stop { IfErr result (λ s. StopsOther (outside S.told source)
        file.entry.now report.entry.now other.entry.now picture (refusal_of s)) }
{
    match load(alloc, file, report, source)? {
        Loaded::Faulty(answer) => Ok(answer),
        Loaded::Given(given) => match lists_of(alloc, Which::Second, other, source) {
            Ok((others, other_counts)) => {
                let told = told(alloc, &given, &others, &other_counts, picture);
                given.discard();
                told
            }
            Err(stop) => {
                given.discard();
                Err(stop)
            }
        },
    }
}

// The replay of one of the reports, with the order of its entries.
fn replayed<'a>(
    alloc: Global,
    which: Which,
    given: &Given<'_>,
    lists: &Lists,
    counts: &Counts,
) -> Result<OrderedRun, Stop<'a>>
    requires replayable { AreReplayable (lists_shape lists.now) (counts_shape counts.now) }
    ensures ordered { let tree = tree_of given.now.program.program.root in
        IfOk result (IsOrdered tree (lists_shape lists.now) (counts_shape counts.now)) }
    ensures stop { let tree = tree_of given.now.program.program.root in IfErr result
        (λ s. StopsReplay tree (lists_shape lists.now) (counts_shape counts.now)
        which (refusal_of s)) }
{
    match ordered_run(alloc, &given.program, lists, counts) {
        Ok(run) => Ok(run),
        Err(stop) => Err(Stop::of_replay(which, stop)),
    }
}

// What there is to tell of both.
fn told<'a>(
    alloc: Global,
    given: &Given<'_>,
    others: &Lists,
    other_counts: &Counts,
    picture: bool,
) -> Result<Answer, Stop<'a>>
    requires replayable { AreReplayable (lists_shape given.now.lists)
        (counts_shape given.now.counts) }
    requires replayable_too { AreReplayable (lists_shape others.now)
        (counts_shape other_counts.now) }
    ensures told { let tree = tree_of given.now.program.program.root in IfOk result
        (λ a. IsOtherTold tree (lists_shape given.now.lists) (counts_shape given.now.counts)
        (lists_shape others.now) (counts_shape other_counts.now) a.status) }
    ensures stop { let tree = tree_of given.now.program.program.root in
        let lists = lists_shape given.now.lists in let counts = counts_shape given.now.counts in
        IfErr result (λ s. StopsCompared picture tree lists counts
        (lists_shape others.now) (counts_shape other_counts.now) (refusal_of s)) }
{
    let run = replayed(alloc, Which::First, given, &given.lists, &given.counts)?;
    match replayed(alloc, Which::Second, given, others, other_counts) {
        Ok(other) => {
            let told = told_of(alloc, given, others, other_counts, &run, &other, picture);
            other.discard();
            run.discard();
            told
        }
        Err(stop) => {
            run.discard();
            Err(stop)
        }
    }
}

// How the one run differs from the other, or a picture of the one.
fn told_of<'a>(
    alloc: Global,
    given: &Given<'_>,
    others: &Lists,
    other_counts: &Counts,
    run: &OrderedRun,
    other: &OrderedRun,
    picture: bool,
) -> Result<Answer, Stop<'a>>
    requires replayable { AreReplayable (lists_shape given.now.lists)
        (counts_shape given.now.counts) }
    ensures compared { IfOk result (λ a. IsCompared (map entry_shape run.now.order.items)
        (lists_shape given.now.lists) (counts_shape given.now.counts)
        (lists_shape others.now) (counts_shape other_counts.now) a.status) }
    ensures stop { let tree = tree_of given.now.program.program.root in
        let lists = lists_shape given.now.lists in let counts = counts_shape given.now.counts in
        IfErr result (λ s. StopsPictured picture tree lists counts (refusal_of s)) }
{
    let order = &run.order;
    let comparison = compare(
        alloc,
        order,
        &given.lists,
        &given.counts,
        others,
        other_counts,
    )?;
    if picture {
        pictured(alloc, given, comparison)
    } else {
        Ok(answer_with(tell_difference(alloc, comparison, run, other)?))
    }
}

// A picture of the one run, in which the first entry that differs stands out.
fn pictured<'a>(
    alloc: Global,
    given: &Given<'_>,
    comparison: Comparison,
) -> Result<Answer, Stop<'a>>
    requires replayable { AreReplayable (lists_shape given.now.lists)
        (counts_shape given.now.counts) }
    ensures status { IfOk result (λ a. a.status ≡ 0) }
    ensures stop { let tree = tree_of given.now.program.program.root in
        let lists = lists_shape given.now.lists in let counts = counts_shape given.now.counts in
        IfErr result (λ s. StopsAtPicture tree lists counts the_whole_run (refusal_of s)) }
{
    let page = whole_run();
    let run = seen(alloc, given, page)?;
    let entry = match comparison {
        Comparison::Differs(difference) => Some(difference.index),
        Comparison::Same | Comparison::Further => None,
    };
    let picture = picture_of(alloc, given.file, page.from, &run, entry);
    run.discard();
    picture
}

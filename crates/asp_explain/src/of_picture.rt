//! A picture of events of a run.

ghost use Rattle.std.specs.Prelude.{◌≡◌, IfErr, IfOk};
ghost use Rattle.asp_model.specs.Shapes.{counts_shape, lists_shape, tree_of};
ghost use Rattle.replay_one.specs.Listed.{AreReplayable};
ghost use Rattle.asp_explain.specs.Refusals.{refusal_of};
ghost use Rattle.asp_explain.specs.Seen.{outside};
ghost use Rattle.asp_explain.specs.Shapes.{page_shape};
ghost use Rattle.asp_explain.specs.OfEvents.{AreEventsTold, TellsOfEvents};
ghost use Rattle.asp_explain.specs.OfPicture.{StopsAtPicture, StopsDrawing, StopsPicture};

use crate::answer::{Answer, answer_with};
use crate::loading::{Given, Loaded, load};
use crate::of_events::seen;
use crate::page::Page;
use crate::stop::Stop;
use asp_edge::Source;
use explain::{EventsRun, draw};
use std::alloc::Global;

/// A picture of events of the run that a report shows.
pub fn of_picture<'a, S: Source>(
    alloc: Global,
    file: &'a str,
    report: &'a str,
    page: Page<'a>,
    source: &mut S,
) -> Result<Answer, Stop<'a>>
    ensures answer { IfOk result (λ a. TellsOfEvents (outside S.told source)
        file.entry.now report.entry.now (page_shape page.entry) a.text.items a.status) }
    ensures stop { IfErr result (λ s. StopsPicture (outside S.told source)
        file.entry.now report.entry.now (page_shape page.entry) (refusal_of s)) }
{
    match load(alloc, file, report, source)? {
        Loaded::Faulty(answer) => Ok(answer),
        Loaded::Given(given) => {
            let drawn = drawn(alloc, &given, page);
            given.discard();
            drawn
        }
    }
}

// A picture of those that a page asks for.
fn drawn<'a>(alloc: Global, given: &Given<'_>, page: Page<'a>) -> Result<Answer, Stop<'a>>
    requires replayable { AreReplayable (lists_shape given.now.lists)
        (counts_shape given.now.counts) }
    ensures told { let tree = tree_of given.now.program.program.root in IfOk result
        (λ a. AreEventsTold tree (lists_shape given.now.lists) (counts_shape given.now.counts)
        (page_shape page.entry) a.status) }
    ensures stop { let tree = tree_of given.now.program.program.root in
        let lists = lists_shape given.now.lists in let counts = counts_shape given.now.counts in
        IfErr result (λ s. StopsAtPicture tree lists counts (page_shape page.entry) (refusal_of s)) }
{
    let run = seen(alloc, given, page)?;
    let picture = picture_of(alloc, given.file, page.from, &run, None);
    run.discard();
    picture
}

/// A picture of these events, of which the first has this number. The entry of a log that is made
/// behind so many others stands out.
pub fn picture_of<'a>(
    alloc: Global,
    file: &str,
    from: u64,
    run: &EventsRun,
    entry: Option<usize>,
) -> Result<Answer, Stop<'a>>
    ensures status { IfOk result (λ a. a.status ≡ 0) }
    ensures stop { IfErr result (λ s. StopsDrawing run.now (refusal_of s)) }
{
    match draw(alloc, file, from, run, entry)? {
        Some(text) => Ok(answer_with(text)),
        None => Err(Stop::LargePicture),
    }
}

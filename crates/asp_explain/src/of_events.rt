//! The events of a run.

ghost use Rattle.std.specs.Prelude.{◌≡◌, IfErr, IfOk, map};
ghost use Rattle.std.specs.List.{list_any};
ghost use Rattle.asp_model.specs.Names.{same_name};
ghost use Rattle.asp_model.specs.Shapes.{activity_shape, counts_shape, lists_shape, tree_of};
ghost use Rattle.replay_one.specs.Listed.{AreReplayable};
ghost use Rattle.asp_explain.specs.Refusals.{refusal_of};
ghost use Rattle.asp_explain.specs.Seen.{outside};
ghost use Rattle.asp_explain.specs.Shapes.{page_shape, text_behind};
ghost use Rattle.asp_explain.specs.OfEvents.{AreEventsSeen, AreEventsTold, IsAbsent, IsThere, IsWish, StopsAtEvents, StopsEvents, TellsOfEvents, activity_on, is_activity};

use crate::answer::{Answer, answer_with};
use crate::loading::{Given, Loaded, load};
use crate::page::Page;
use crate::stop::{Stop, Which};
use asp_edge::Source;
use asp_model::{ActivityName, ActivityReport};
use explain::{EventsRun, Wish, events_of as events_in, tell_events};
use std::alloc::{AllocError, Global};
use text_lines::name_of;

/// What there is to tell of the events of the run that a report shows.
pub fn of_events<'a, S: Source>(
    alloc: Global,
    file: &'a str,
    report: &'a str,
    page: Page<'a>,
    source: &mut S,
) -> Result<Answer, Stop<'a>>
    ensures answer { IfOk result (λ a. TellsOfEvents (outside S.told source)
        file.entry.now report.entry.now (page_shape page.entry) a.text.items a.status) }
    ensures stop { IfErr result (λ s. StopsEvents (outside S.told source)
        file.entry.now report.entry.now (page_shape page.entry) (refusal_of s)) }
{
    match load(alloc, file, report, source)? {
        Loaded::Faulty(answer) => Ok(answer),
        Loaded::Given(given) => {
            let told = told(alloc, &given, page);
            given.discard();
            told
        }
    }
}

// What there is to tell of them.
fn told<'a>(alloc: Global, given: &Given<'_>, page: Page<'a>) -> Result<Answer, Stop<'a>>
    requires replayable { AreReplayable (lists_shape given.now.lists)
        (counts_shape given.now.counts) }
    ensures told { let tree = tree_of given.now.program.program.root in IfOk result
        (λ a. AreEventsTold tree (lists_shape given.now.lists) (counts_shape given.now.counts)
        (page_shape page.entry) a.status) }
    ensures stop { let tree = tree_of given.now.program.program.root in
        let lists = lists_shape given.now.lists in let counts = counts_shape given.now.counts in
        IfErr result (λ s. StopsAtEvents tree lists counts (page_shape page.entry) (refusal_of s)) }
{
    let run = seen(alloc, given, page)?;
    let text = tell_events(alloc, given.file, &given.bytes, page.from, &run);
    run.discard();
    Ok(answer_with(text?))
}

/// The events that a page asks for, if the run has the activity.
pub fn seen<'a>(alloc: Global, given: &Given<'_>, page: Page<'a>) -> Result<EventsRun, Stop<'a>>
    requires replayable { AreReplayable (lists_shape given.now.lists)
        (counts_shape given.now.counts) }
    ensures seen { let tree = tree_of given.now.program.program.root in IfOk result
        (AreEventsSeen tree (lists_shape given.now.lists) (counts_shape given.now.counts)
        (page_shape page.entry)) }
    ensures stop { let tree = tree_of given.now.program.program.root in
        let lists = lists_shape given.now.lists in let counts = counts_shape given.now.counts in
        IfErr result (λ s. StopsAtEvents tree lists counts (page_shape page.entry) (refusal_of s)) }
{
    let wish = wish_of(alloc, page)?;
    match events_in(alloc, &given.program, &given.lists, &given.counts, wish) {
        Ok(run) => match there(alloc, page, &run.outcome.activities) {
            Ok(()) => Ok(run),
            Err(stop) => {
                run.discard();
                Err(stop)
            }
        },
        Err(stop) => Err(Stop::of_replay(Which::First, stop)),
    }
}

// The events that a page asks for.
fn wish_of(alloc: Global, page: Page<'_>) -> Result<Wish, AllocError>
    ensures { IfOk result (IsWish (page_shape page.entry)) }
{
    let activity = name_on(alloc, page.activity)?;
    Ok(Wish {
        activity,
        skip: page.from - 1,
        most: page.most as usize,
    })
}

// The name that a page asks for.
fn name_on(alloc: Global, activity: Option<&str>) -> Result<Option<ActivityName>, AllocError>
    ensures { IfOk result (λ o. o ≡ activity_on (text_behind activity.entry)) }
{
    match activity {
        Some(text) => name_of(alloc, text.as_bytes()),
        None => Ok(None),
    }
}

// The activity that a page asks for is one of these.
fn there<'a>(alloc: Global, page: Page<'a>, activities: &[ActivityReport]) -> Result<(), Stop<'a>>
    ensures there { IfOk result (λ _. IsThere (text_behind page.entry.activity)
        (map activity_shape activities.now)) }
    ensures absent { IfErr result (λ s. IsAbsent (text_behind page.entry.activity)
        (map activity_shape activities.now) (refusal_of s)) }
{
    match page.activity {
        Some(text) => {
            if is_there(alloc, text, activities)? {
                Ok(())
            } else {
                Err(Stop::NoActivity(text))
            }
        }
        None => Ok(()),
    }
}

// A text is the name of one of the activities.
fn is_there(alloc: Global, text: &str, activities: &[ActivityReport]) -> Result<bool, AllocError>
    ensures { IfOk result (λ b. b ≡ is_activity text.now (map activity_shape activities.now)) }
{
    match name_of(alloc, text.as_bytes())? {
        Some(name) => Ok(is_among(activities, &name)),
        None => Ok(false),
    }
}

// One of the activities has this name.
fn is_among(activities: &[ActivityReport], name: &ActivityName) -> bool
    ensures { result ≡ list_any (λ a. same_name a.name name.now) activities.now }
{
    activities.iter().any(|activity| activity.name == *name)
}

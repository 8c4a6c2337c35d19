//! What the words ask for.

ghost use Rattle.std.specs.Prelude.{◌≡◌, ◌≤◌, IfErr, IfOk, IfSome, map, option_map, string_bytes};
ghost use Rattle.asp_model.specs.declared.limits.TheConstants.{MOST_REDUCTIONS};
ghost use Rattle.command_line.specs.Numbers.{number_in as number_within};
ghost use Rattle.asp_explain.specs.Tasks.{are_paged as is_paged, has_more, number_told, page_in, page_task, task_in as task_among, task_on as task_beside, until_task, whole_run as the_whole_run};
ghost use Rattle.asp_explain.specs.declared.page.TheConstants.{MOST_EVENTS};
ghost use Rattle.asp_explain.specs.Shapes.{IsWanted, StopsFor, page_shape, task_shape, text_behind, texts_shape};

use crate::command::{Refused, Texts, matches, texts_found};
use crate::page::{DRAWN_EVENTS, MOST_EVENTS, Page, USUAL_EVENTS};
use crate::stop::Stop;
use asp_model::MOST_REDUCTIONS;
use command_line::number_in;
use std::alloc::Global;

/// What is to be told.
#[derive(Drop)]
pub enum Task<'a> {
    /// What is wrong with the program in a file.
    File {
        file: &'a str,
    },
    /// Why the run of it stands as it does that a report shows.
    Run {
        file: &'a str,
        report: &'a str,
    },
    /// The events of that run.
    Events {
        file: &'a str,
        report: &'a str,
        page: Page<'a>,
    },
    /// That run beside the one of another report.
    Other {
        file: &'a str,
        report: &'a str,
        other: &'a str,
        picture: bool,
    },
    /// A picture of events of that run.
    Picture {
        file: &'a str,
        report: &'a str,
        page: Page<'a>,
    },
    /// The report, cut back to where an activity has made so many reductions.
    Until {
        file: &'a str,
        report: &'a str,
        activity: &'a str,
        count: u64,
    },
}

/// What the words ask for.
#[derive(Drop)]
pub enum Wanted<'a> {
    Told(Task<'a>),
    /// This text on the program's use.
    Help(String),
}

/// What the words, without the program's name, ask for.
#[tactic(auto, unfolding(crate::specs::Tasks::task_of))]
pub fn read_words<'a>(alloc: Global, words: &'a [String]) -> Result<Wanted<'a>, Stop<'a>>
    ensures wanted { IfOk result (IsWanted (map string_bytes words.entry.now)) }
    ensures stop { IfErr result (StopsFor (map string_bytes words.entry.now)) }
{
    match matches(alloc, words) {
        Ok(matches) => match task_in(&texts_found(&matches)) {
            Some(task) => Ok(Wanted::Told(task)),
            None => Err(Stop::Usage),
        },
        Err(Refused::Help(text)) => Ok(Wanted::Help(text)),
        Err(Refused::Usage) => Err(Stop::Usage),
        Err(Refused::Memory) => Err(Stop::Memory),
    }
}

// The task, where the texts may stand together.
fn task_in<'a>(texts: &Texts<'a>) -> Option<Task<'a>>
    ensures { option_map task_shape result ≡ task_among (texts_shape texts.now) }
{
    match (texts.file, texts.report) {
        (Some(file), Some(report)) => task_on(file, report, texts),
        (Some(file), None) => {
            if has_options(texts) {
                None
            } else {
                Some(Task::File { file })
            }
        }
        (None, _) => None,
    }
}

// The task on a report: an arm for each option that asks for one.
fn task_on<'a>(file: &'a str, report: &'a str, texts: &Texts<'a>) -> Option<Task<'a>>
    ensures { option_map task_shape result
        ≡ task_beside file.entry.now report.entry.now (texts_shape texts.now) }
{
    match (texts.events, texts.until, texts.other, texts.picture) {
        (false, None, None, false) => {
            if is_paged(texts) {
                None
            } else {
                Some(Task::Run { file, report })
            }
        }
        (false, None, None, true) => {
            if is_paged(texts) {
                None
            } else {
                Some(Task::Picture {
                    file,
                    report,
                    page: whole_run(),
                })
            }
        }
        (true, None, None, picture) => match page_of(texts) {
            Some(page) => Some(events_task(file, report, page, picture)),
            None => None,
        },
        (false, None, Some(other), picture) => {
            if is_paged(texts) {
                None
            } else {
                Some(Task::Other {
                    file,
                    report,
                    other,
                    picture,
                })
            }
        }
        (false, Some((activity, count)), None, false) => {
            if is_paged(texts) {
                None
            } else {
                until(file, report, activity, count)
            }
        }
        _ => None,
    }
}

/// All events, up to more than are drawn.
pub fn whole_run<'a>() -> Page<'a>
    ensures { page_shape result ≡ the_whole_run }
{
    Page {
        activity: None,
        from: 1,
        most: DRAWN_EVENTS,
    }
}

// Events are told, or drawn.
fn events_task<'a>(file: &'a str, report: &'a str, page: Page<'a>, picture: bool) -> Task<'a>
    ensures { task_shape result ≡
        page_task file.entry.now report.entry.now picture (page_shape page.entry) }
{
    if picture {
        Task::Picture { file, report, page }
    } else {
        Task::Events { file, report, page }
    }
}

// A report is cut back to a count of an activity.
fn until<'a>(file: &'a str, report: &'a str, activity: &'a str, count: &str) -> Option<Task<'a>>
    ensures { option_map task_shape result ≡ until_task file.entry.now report.entry.now
        activity.entry.now (number_within 1 MOST_REDUCTIONS count.now) }
{
    match number_in(count, 1, MOST_REDUCTIONS) {
        Some(count) => Some(Task::Until {
            file,
            report,
            activity,
            count,
        }),
        None => None,
    }
}

// The number that is written, or this one where none is.
fn number_or(usual: u64, text: Option<&str>) -> Option<u64>
    requires usual { (1 ≤ usual) × (usual ≤ MOST_EVENTS) }
    ensures number { result ≡ number_told usual (text_behind text.entry) }
    ensures within { IfSome result (λ n. (1 ≤ n) × (n ≤ MOST_EVENTS)) }
{
    match text {
        Some(text) => number_in(text, 1, MOST_EVENTS),
        None => Some(usual),
    }
}

// The page that is asked for.
fn page_of<'a>(texts: &Texts<'a>) -> Option<Page<'a>>
    ensures { option_map page_shape result ≡ page_in (texts_shape texts.now) }
{
    let from = number_or(1, texts.from)?;
    let most = number_or(USUAL_EVENTS, texts.most)?;
    Some(Page {
        activity: texts.activity,
        from,
        most,
    })
}

// A page of events is asked for.
fn is_paged(texts: &Texts<'_>) -> bool
    ensures { result ≡ is_paged (texts_shape texts.now) }
{
    texts.activity.is_some() || texts.from.is_some() || texts.most.is_some()
}

// There are other words than files.
fn has_options(texts: &Texts<'_>) -> bool
    ensures { result ≡ has_more (texts_shape texts.now) }
{
    is_paged(texts)
        || texts.events
        || texts.until.is_some()
        || texts.other.is_some()
        || texts.picture
}

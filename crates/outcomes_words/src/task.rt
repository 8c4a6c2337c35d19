//! What the words ask for.

ghost use Rattle.std.specs.Prelude.{◌≡◌, ◌≤◌, IfOk, IfErr, IfSome, map, option_map, string_bytes};
ghost use Rattle.asp_model.specs.declared.limits.TheConstants.{MOST_DEPTH as MOST_DEEP};
ghost use Rattle.outcomes_words.specs.Shapes.{IsUnwanted, IsWanted, IsWantedWithin, task_shape, text_behind, texts_shape};
ghost use Rattle.outcomes_words.specs.Words.{IsWithin, are_at_odds as are_texts_at_odds, choice_of, number_if, number_or as number_or_usual, task_in as task_within};

use crate::command::{Refused, Texts, read_texts};
use asp_model::{MOST_DEPTH, MOST_REDUCTIONS};
use command_line::number_in;
use std::alloc::Global;

/// The ends that are looked for, at most.
pub const MOST_ENDS: u64 = 100_000;

const USUAL_ENDS: u64 = 10_000;

const USUAL_BUDGET: u64 = 1_000_000;

/// Whose report is asked for, by its number from 1.
#[derive(Clone, Copy)]
pub enum Choice {
    /// That of the first end of an outcome.
    Outcome(u64),
    /// That of an end.
    End(u64),
}

/// The outcomes of a program, or the report of one of them or of one end.
#[derive(Drop)]
pub struct Task<'a> {
    /// The program's file.
    pub file: &'a str,
    /// The most reductions of a run.
    pub budget: u64,
    /// The most ends that are looked for.
    pub most: u64,
    /// How deep states are shown, if they are.
    pub depth: Option<u32>,
    /// The outcome or the end whose report is asked for.
    pub choice: Option<Choice>,
    /// The files whose reports are checked to be all ends; where there is none, ends are looked for.
    pub given: Vec<&'a str>,
    /// Ends are told apart by each order of receptions, and not by classes of labels alone.
    pub whole_orders: bool,
}

/// What the words ask for.
#[derive(Drop)]
pub enum Wanted<'a> {
    Outcomes(Task<'a>),
    /// This text on the program's use.
    Help(String),
}

/// Why they ask for nothing.
#[derive(Debug, Drop)]
pub enum WordsRefused {
    Usage,
    Memory,
}

/// What the words, without the program's name, ask for.
#[tactic(auto, unfolding(crate::specs::Words::task_of))]
pub fn read_words<'a>(alloc: Global, words: &'a [String]) -> Result<Wanted<'a>, WordsRefused>
    ensures wanted { IfOk result (IsWanted (map string_bytes words.entry.now)) }
    ensures refused { IfErr result (IsUnwanted (map string_bytes words.entry.now)) }
    ensures within { IfOk result IsWantedWithin }
{
    match read_texts(alloc, words) {
        Ok(texts) => match task_in(texts) {
            Some(task) => Ok(Wanted::Outcomes(task)),
            None => Err(WordsRefused::Usage),
        },
        Err(Refused::Help(text)) => Ok(Wanted::Help(text)),
        Err(Refused::Usage) => Err(WordsRefused::Usage),
        Err(Refused::Memory) => Err(WordsRefused::Memory),
    }
}

// Whether a search is bounded where none is asked for.
fn are_at_odds(texts: &Texts<'_>) -> bool
    ensures { result ≡ are_texts_at_odds (texts_shape texts.now) }
{
    !texts.given.is_empty() && (texts.budget.is_some() || texts.ends.is_some())
}

// The task, where the numbers are within bounds.
fn task_in<'a>(texts: Texts<'a>) -> Option<Task<'a>>
    ensures task { option_map task_shape result ≡ task_within (texts_shape texts.entry) }
    ensures within { IfSome result (λ t. IsWithin (task_shape t)) }
{
    if are_at_odds(&texts) {
        return None;
    }
    let file = texts.file?;
    let budget = number_or(texts.budget, 1, MOST_REDUCTIONS, USUAL_BUDGET)?;
    let most = number_or(texts.ends, 1, MOST_ENDS, USUAL_ENDS)?;
    let depth = depth_in(texts.state)?;
    let choice = choice_in(texts.report, texts.end)?;
    Some(Task {
        file,
        budget,
        most,
        depth,
        choice,
        given: texts.given,
        whole_orders: texts.whole_orders,
    })
}

fn number_or(text: Option<&str>, least: u64, most: u64, usual: u64) -> Option<u64>
    requires usual { usual ≤ most }
    ensures number { result ≡ number_or_usual least most usual (text_behind text.entry) }
    ensures within { IfSome result (λ n. n ≤ most) }
{
    match text {
        Some(text) => number_in(text, least, most),
        None => Some(usual),
    }
}

fn depth_in(text: Option<&str>) -> Option<Option<u32>>
    ensures depth { result ≡ number_if 0 MOST_DEEP (text_behind text.entry) }
{
    let Some(text) = text else {
        return Some(None);
    };
    let depth = number_in(text, 0, MOST_DEPTH as u64)?;
    Some(Some(depth as u32))
}

fn choice_in(report: Option<&str>, end: Option<&str>) -> Option<Option<Choice>>
    ensures choice { result ≡ choice_of (text_behind report.entry) (text_behind end.entry) }
{
    match (report, end) {
        (None, None) => Some(None),
        (Some(text), None) => Some(Some(Choice::Outcome(number_in(text, 1, MOST_ENDS)?))),
        (None, Some(text)) => Some(Some(Choice::End(number_in(text, 1, MOST_ENDS)?))),
        (Some(_), Some(_)) => None,
    }
}

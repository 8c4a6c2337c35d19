//! What a call tells, up to the writing.

ghost use Rattle.std.specs.Prelude.{◌≡◌, ◌∷◌, ℕ, Option, IfOk, IfErr, length, map, string_bytes, ◌-◌};
ghost use Rattle.asp_model.specs.Shapes.{tree_of};
ghost use Rattle.asp_top.specs.Programs.{AsksInTurn};
ghost use Rattle.asp_top.specs.Ready.{text_in};
ghost use Rattle.asp_top.specs.Seen.{bytes_of, outside};
ghost use Rattle.outcome_search.specs.Ends.{AreReplayableEnds, IsReplayableEnd, run_logs};
ghost use Rattle.replay_offers.specs.Programs.{tree_in};
ghost use Rattle.outcomes_words.specs.Shapes.{task_shape};
ghost use Rattle.outcomes_words.specs.Words.{IsWithin};
ghost use Rattle.outcomes_top.specs.Correct.{Answers, TellsAll, TellsOne};
ghost use Rattle.outcomes_top.specs.Endings.{IsAnswer, ReadsFiles};
ghost use Rattle.asp_top.specs.declared.stop.Stop.TheVariants as stops;
ghost use Rattle.outcomes_top.specs.declared.halt.Halt.TheVariants as halts;
ghost use Rattle.outcomes_top.specs.Families.{end_of, status_with};
ghost use Rattle.outcomes_top.specs.Surveys.{Halts, HaltsAt, HaltsFor, HaltsOne, IsReportOf, IsSurvey, TellsOf, place_in, some_below};

use crate::family::{Family, family_of};
use crate::given::ends_in;
use crate::halt::Halt;
use crate::survey::{Survey, end_at, survey_of};
use asp_check::Checked;
use asp_edge::Source;
use asp_top::{Prepared, Stop, program_of, report_for};
use end_search::ProgressBox;
use outcome_search::EndedRun;
use outcomes_text::tell;
use outcomes_words::{Choice, Task, Wanted, WordsRefused, read_words};
use replay_offers::Replays;
use std::alloc::{AllocError, Global};

/// What the words ask to be told.
#[tactic(auto, using(crate::proofs::ReadLemmas::none_read))]
pub fn answer_of<'a, S: Source>(
    alloc: Global,
    words: &'a [String],
    source: &mut S,
    progress: &ProgressBox,
) -> Result<Prepared, Halt<'a>>
    ensures answer { IfOk result (λ p. IsAnswer (bytes_of words.entry.now)
        (outside S.told source) (text_in p) p.status) }
    ensures halt { IfErr result (Halts (bytes_of words.entry.now) (outside S.told source)) }
    ensures reads { ReadsFiles (bytes_of words.entry.now) (outside S.told source) }
{
    match read_words(alloc, words) {
        Ok(Wanted::Outcomes(task)) => of_task(alloc, &task, source, progress),
        Ok(Wanted::Help(text)) => Ok(of_help(alloc, text)?),
        Err(WordsRefused::Usage) => Err(Halt::Usage),
        Err(WordsRefused::Memory) => Err(Halt::Stop(Stop::Memory)),
    }
}

// A text of one piece.
fn of_text(alloc: Global, text: String, status: u8) -> Result<Prepared, AllocError>
    ensures text { IfOk result (λ p. text_in p ≡ string_bytes text) }
    ensures status { IfOk result (λ p. p.status ≡ status) }
{
    let mut pieces = Vec::new(alloc);
    pieces.push(text)?;
    Ok(Prepared { status, pieces })
}

fn of_help(alloc: Global, text: String) -> Result<Prepared, AllocError>
    ensures { IfOk result (λ p. p.status ≡ 0) }
{
    of_text(alloc, text, 0)
}

fn of_task<'a, S: Source>(
    alloc: Global,
    task: &Task<'a>,
    source: &mut S,
    progress: &ProgressBox,
) -> Result<Prepared, Halt<'a>>
    requires within { IsWithin (task_shape task.now) }
    ensures answer { IfOk result (λ p. Answers (outside S.told source)
        (task_shape task.now) (text_in p) p.status) }
    ensures halt { IfErr result (HaltsFor (outside S.told source) (task_shape task.now)) }
    ensures reads { let shape = task_shape task.now in
        AsksInTurn (outside S.told source) (shape.file ∷ shape.given) }
{
    let checked = program_of(alloc, task.file, source)?;
    let given = ends_in(alloc, &checked, &task.given, source)?;
    of_program(alloc, &checked, task, given, progress)
}

// What there is to tell of a program, and of given ends of it where files are named for them.
fn of_program<'a>(
    alloc: Global,
    program: &Checked,
    task: &Task<'_>,
    given: Vec<EndedRun>,
    progress: &ProgressBox,
) -> Result<Prepared, Halt<'a>>
    requires within { IsWithin (task_shape task.now) }
    requires given { let tree = tree_of program.now.program.root in
        AreReplayableEnds tree (map run_logs given.items) }
    ensures answer { let tree = tree_of program.now.program.root in
        let given = map run_logs given.items in
        IfOk result (λ p. TellsOf (task_shape task.now) tree given (text_in p) p.status) }
    ensures halt { let tree = tree_of program.now.program.root in
        let given = map run_logs given.items in
        IfErr result (HaltsAt (task_shape task.now) tree given) }
{
    let family = family_of(alloc, program, task, given, progress)?;
    let survey = survey_of(alloc, &family.runs, &family.ends, task.depth)?;
    match task.choice {
        None => Ok(all(alloc, &family, &survey)?),
        Some(choice) => one(alloc, &family, &survey, choice, task.depth),
    }
}

fn count(ends: &[EndedRun]) -> usize
    ensures { result ≡ length ends.now }
{
    ends.len()
}

fn status_for(whole: bool, worst: u8) -> u8
    ensures { result ≡ status_with whole worst }
{
    if whole { worst } else { 5 }
}

// All outcomes.
fn all(alloc: Global, family: &Family, survey: &Survey) -> Result<Prepared, AllocError>
    ensures all { (depth : Option ℕ) →
        let ends = map run_logs family.now.ends.items in
        IsSurvey depth (tree_in family.now.runs) ends survey.now →
        IfOk result (λ p. TellsAll
        depth (tree_in family.now.runs) family.now.whole ends (text_in p) p.status) }
{
    let ends = count(&family.ends);
    let text = tell(alloc, family.whole, ends, survey.longest, &survey.tally)?;
    let status = status_for(family.whole, survey.worst);
    of_text(alloc, text, status)
}

// The place of an outcome by its number.
fn place_of(number: u64) -> usize
    ensures { result ≡ number - 1 }
{
    if number == 0 {
        return 0;
    }
    (number - 1) as usize
}

// The report of an ended run.
fn report_of<'a>(
    alloc: Global,
    runs: &Replays,
    end: &EndedRun,
    depth: Option<u32>,
) -> Result<Prepared, Halt<'a>>
    requires end { IsReplayableEnd (tree_in runs.now) (run_logs end.now) }
    ensures report { let c = end_of (tree_in runs.now) (run_logs end.now) in
        IfOk result (λ p. IsReportOf depth c (text_in p) p.status) }
    ensures halt { IfErr result (λ h. h ≡ halts.Stop stops.Memory) }
{
    let run = runs.replay(alloc, end)?;
    Ok(report_for(alloc, &run, depth)?)
}

// The place of the end that is chosen, if there are so many.
fn place_chosen(ends: &[EndedRun], survey: &Survey, choice: Choice) -> Option<usize>
    ensures place { result ≡ place_in survey.now.tally (length ends.now) choice }
{
    match choice {
        Choice::Outcome(number) => {
            let (_, share) = survey.tally.get(place_of(number))?;
            Some(share.first)
        }
        Choice::End(number) => place_below(place_of(number), ends.len()),
    }
}

fn place_below(place: usize, count: usize) -> Option<usize>
    ensures { result ≡ some_below place count }
{
    if place < count { Some(place) } else { None }
}

// The report of the end that is chosen.
fn one<'a>(
    alloc: Global,
    family: &Family,
    survey: &Survey,
    choice: Choice,
    depth: Option<u32>,
) -> Result<Prepared, Halt<'a>>
    requires ends { AreReplayableEnds (tree_in family.now.runs)
        (map run_logs family.now.ends.items) }
    requires survey { let ends = map run_logs family.now.ends.items in
        IsSurvey depth (tree_in family.now.runs) ends survey.now }
    ensures answer { let ends = map run_logs family.now.ends.items in IfOk result
        (λ p. TellsOne depth (tree_in family.now.runs) ends choice (text_in p) p.status) }
    ensures halt { let ends = map run_logs family.now.ends.items in
        IfErr result (HaltsOne depth (tree_in family.now.runs) ends choice) }
{
    let Some(place) = place_chosen(&family.ends, survey, choice) else {
        return Err(Halt::Missing(choice));
    };
    let end = end_at(&family.ends, place);
    report_of(alloc, &family.runs, end, depth)
}

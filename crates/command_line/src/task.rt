//! What the words ask for.

ghost use Rattle.std.specs.Prelude.{◌≡◌, IfOk, IfErr, Some, None, map, string_bytes};
ghost use Rattle.command_line.specs.Task.{
  IsDepth,
  IsWithin,
  depth_of,
  journaling,
  making,
  replaying,
  resuming,
  ruling,
  running,
  saving,
  saving_again,
  task_by as task_given,
  task_in,
  task_of,
  tracing,
};
ghost use Rattle.command_line.specs.Shapes.{given_shape, task_shape, text_behind, texts_shape, wanted_shape};
ghost use Rattle.command_line.specs.declared.error.WordsError.TheVariants as errors;

use crate::command::{Given, Texts, read_texts};
use crate::error::WordsError;
use crate::number::number_in;
use crate::settings::{Settings, budget_in, settings_in};
use crate::wanted::{Wanted, companions_of, stand, wanted_in};
use asp_model::{MOST_DEPTH, MOST_PAIRS};
use std::alloc::Global;

/// What the words ask for.
#[derive(Drop)]
pub enum Task<'a> {
    /// Run the program in a file.
    Run {
        /// The file's name.
        file: &'a str,
        /// How it is run.
        settings: Settings,
        /// How deep the report shows states, if it shows any.
        depth: Option<u32>,
    },
    /// Read and check it alone.
    Check {
        /// The file's name.
        file: &'a str,
    },
    /// Run it, and say whether that run is the only one.
    Rule {
        /// The file's name.
        file: &'a str,
        /// How it is run.
        settings: Settings,
    },
    /// Run it, and write what its core did.
    Journal {
        /// The file's name.
        file: &'a str,
        /// How it is run.
        settings: Settings,
    },
    /// Run it, and write what is left of the run, where the budget runs out.
    Save {
        /// The file's name.
        file: &'a str,
        /// How it is run.
        settings: Settings,
    },
    /// Run it on from a checkpoint.
    Resume {
        /// The program's file.
        file: &'a str,
        /// The checkpoint's file.
        checkpoint: &'a str,
        /// How it is run on.
        settings: Settings,
        /// How deep the report shows states, if it shows any.
        depth: Option<u32>,
    },
    /// Run it on from a checkpoint, and write what is left of the run, where the budget runs out.
    SaveAgain {
        /// The program's file.
        file: &'a str,
        /// The checkpoint's file.
        checkpoint: &'a str,
        /// How it is run on.
        settings: Settings,
    },
    /// Replay a report of it.
    Replay {
        /// The program's file.
        file: &'a str,
        /// The report's file.
        report: &'a str,
        /// How deep the report of the replay shows states, if it shows any.
        depth: Option<u32>,
    },
    /// Replay two reports of it, and say whether a service could tell them apart.
    Compare {
        /// The program's file.
        file: &'a str,
        /// The first report's file.
        report: &'a str,
        /// The second report's file.
        other: &'a str,
    },
    /// Go through a trace of it again, and write the report of its end.
    Trace {
        /// The program's file.
        file: &'a str,
        /// The trace's file.
        trace: &'a str,
        /// The most reductions that the traced run could take.
        budget: u64,
        /// How deep the report shows states, if it shows any.
        depth: Option<u32>,
    },
    /// Run the generated program of so many pairs.
    Make {
        /// The number of pairs.
        pairs: u64,
        /// How it is run.
        settings: Settings,
    },
}

/// What the words, without the program's name, ask for.
#[tactic(auto, unfolding(crate::specs::Task::task_of))]
pub fn read_words<'a>(alloc: Global, words: &'a [String]) -> Result<Task<'a>, WordsError>
    ensures ok { IfOk result (λ t. task_of (map string_bytes words.now) ≡ Some (task_shape t)) }
    ensures usage { IfErr result
        (λ e. e ≡ errors.Usage → task_of (map string_bytes words.now) ≡ None) }
    ensures within { IfOk result (λ t. IsWithin (task_shape t)) }
{
    let texts = read_texts(alloc, words)?;
    task_from(alloc, &texts)
}

// The task, where the texts may stand together.
fn task_from<'a>(alloc: Global, texts: &Texts<'a>) -> Result<Task<'a>, WordsError>
    ensures ok { IfOk result (λ t. task_in (texts_shape texts.now) ≡ Some (task_shape t)) }
    ensures usage { IfErr result (λ e. e ≡ errors.Usage → task_in (texts_shape texts.now) ≡ None) }
    ensures within { IfOk result (λ t. IsWithin (task_shape t)) }
{
    let Some(wanted) = wanted_in(texts) else {
        return Err(WordsError::Usage);
    };
    if stand(&companions_of(wanted), texts) {
        task_by(alloc, wanted, texts)
    } else {
        Err(WordsError::Usage)
    }
}

// The task, of a program in FILE or of a generated one.
fn task_by<'a>(alloc: Global, wanted: Wanted<'a>, texts: &Texts<'a>) -> Result<Task<'a>, WordsError>
    ensures ok { let asked = task_given (wanted_shape wanted.entry) in IfOk result
        (λ t. asked (text_behind texts.now.file) (texts_shape texts.now) ≡ Some (task_shape t)) }
    ensures usage { let asked = task_given (wanted_shape wanted.entry) in
        let task = asked (text_behind texts.now.file) (texts_shape texts.now) in
        IfErr result (λ e. e ≡ errors.Usage → task ≡ None) }
    ensures within { IfOk result (λ t. IsWithin (task_shape t)) }
{
    match (wanted, texts.file) {
        (Wanted::Run, Some(file)) => run(alloc, file, &texts.settings, texts.state),
        (Wanted::Check, Some(file)) => Ok(Task::Check { file }),
        (Wanted::Rule, Some(file)) => rule(alloc, file, &texts.settings),
        (Wanted::Journal, Some(file)) => journal(alloc, file, &texts.settings),
        (Wanted::Save, Some(file)) => save(alloc, file, &texts.settings),
        (Wanted::Resume(name), Some(file)) => {
            resume(alloc, file, name, &texts.settings, texts.state)
        }
        (Wanted::SaveAgain(name), Some(file)) => save_again(alloc, file, name, &texts.settings),
        (Wanted::Replay(report), Some(file)) => replay(file, report, texts.state),
        (Wanted::Compare(report, other), Some(file)) => Ok(Task::Compare {
            file,
            report,
            other,
        }),
        (Wanted::Trace(name), Some(file)) => trace(file, name, &texts.settings, texts.state),
        (Wanted::Make(pairs), None) => make(alloc, pairs, &texts.settings),
        _ => Err(WordsError::Usage),
    }
}

fn run<'a>(
    alloc: Global,
    file: &'a str,
    given: &Given<'_>,
    state: Option<&str>,
) -> Result<Task<'a>, WordsError>
    ensures ok { let depth = text_behind state.entry in IfOk result
        (λ t. running file.entry.now (given_shape given.now) depth ≡ Some (task_shape t)) }
    ensures usage { let depth = text_behind state.entry in IfErr result
        (λ e. e ≡ errors.Usage → running file.entry.now (given_shape given.now) depth ≡ None) }
    ensures within { IfOk result (λ t. IsWithin (task_shape t)) }
{
    let settings = settings_in(alloc, given)?;
    let depth = depth_in(state)?;
    Ok(Task::Run {
        file,
        settings,
        depth,
    })
}

fn rule<'a>(alloc: Global, file: &'a str, given: &Given<'_>) -> Result<Task<'a>, WordsError>
    ensures ok { IfOk result
        (λ t. ruling file.entry.now (given_shape given.now) ≡ Some (task_shape t)) }
    ensures usage { IfErr result
        (λ e. e ≡ errors.Usage → ruling file.entry.now (given_shape given.now) ≡ None) }
    ensures within { IfOk result (λ t. IsWithin (task_shape t)) }
{
    let settings = settings_in(alloc, given)?;
    Ok(Task::Rule { file, settings })
}

fn journal<'a>(alloc: Global, file: &'a str, given: &Given<'_>) -> Result<Task<'a>, WordsError>
    ensures ok { IfOk result
        (λ t. journaling file.entry.now (given_shape given.now) ≡ Some (task_shape t)) }
    ensures usage { IfErr result
        (λ e. e ≡ errors.Usage → journaling file.entry.now (given_shape given.now) ≡ None) }
    ensures within { IfOk result (λ t. IsWithin (task_shape t)) }
{
    let settings = settings_in(alloc, given)?;
    Ok(Task::Journal { file, settings })
}

fn save<'a>(alloc: Global, file: &'a str, given: &Given<'_>) -> Result<Task<'a>, WordsError>
    ensures ok { IfOk result
        (λ t. saving file.entry.now (given_shape given.now) ≡ Some (task_shape t)) }
    ensures usage { IfErr result
        (λ e. e ≡ errors.Usage → saving file.entry.now (given_shape given.now) ≡ None) }
    ensures within { IfOk result (λ t. IsWithin (task_shape t)) }
{
    let settings = settings_in(alloc, given)?;
    Ok(Task::Save { file, settings })
}

fn resume<'a>(
    alloc: Global,
    file: &'a str,
    checkpoint: &'a str,
    given: &Given<'_>,
    state: Option<&str>,
) -> Result<Task<'a>, WordsError>
    ensures ok { let asked = resuming file.entry.now checkpoint.entry.now (given_shape given.now) in
        IfOk result (λ t. asked (text_behind state.entry) ≡ Some (task_shape t)) }
    ensures usage { let asked = resuming file.entry.now checkpoint.entry.now in IfErr result
        (λ e. e ≡ errors.Usage → asked (given_shape given.now) (text_behind state.entry) ≡ None) }
    ensures within { IfOk result (λ t. IsWithin (task_shape t)) }
{
    let settings = settings_in(alloc, given)?;
    let depth = depth_in(state)?;
    Ok(Task::Resume {
        file,
        checkpoint,
        settings,
        depth,
    })
}

fn save_again<'a>(
    alloc: Global,
    file: &'a str,
    checkpoint: &'a str,
    given: &Given<'_>,
) -> Result<Task<'a>, WordsError>
    ensures ok { let asked = saving_again file.entry.now checkpoint.entry.now in
        IfOk result (λ t. asked (given_shape given.now) ≡ Some (task_shape t)) }
    ensures usage { let asked = saving_again file.entry.now checkpoint.entry.now in
        IfErr result (λ e. e ≡ errors.Usage → asked (given_shape given.now) ≡ None) }
    ensures within { IfOk result (λ t. IsWithin (task_shape t)) }
{
    let settings = settings_in(alloc, given)?;
    Ok(Task::SaveAgain {
        file,
        checkpoint,
        settings,
    })
}

fn replay<'a>(file: &'a str, report: &'a str, state: Option<&str>) -> Result<Task<'a>, WordsError>
    ensures ok { let depth = text_behind state.entry in IfOk result
        (λ t. replaying file.entry.now report.entry.now depth ≡ Some (task_shape t)) }
    ensures usage { let depth = text_behind state.entry in IfErr result
        (λ _. replaying file.entry.now report.entry.now depth ≡ None) }
    ensures within { IfOk result (λ t. IsWithin (task_shape t)) }
{
    let depth = depth_in(state)?;
    Ok(Task::Replay {
        file,
        report,
        depth,
    })
}

fn trace<'a>(
    file: &'a str,
    trace: &'a str,
    given: &Given<'_>,
    state: Option<&str>,
) -> Result<Task<'a>, WordsError>
    ensures ok { let asked = tracing file.entry.now trace.entry.now (given_shape given.now) in
        IfOk result (λ t. asked (text_behind state.entry) ≡ Some (task_shape t)) }
    ensures usage { let asked = tracing file.entry.now trace.entry.now (given_shape given.now) in
        IfErr result (λ _. asked (text_behind state.entry) ≡ None) }
    ensures within { IfOk result (λ t. IsWithin (task_shape t)) }
{
    let budget = budget_in(given.budget)?;
    let depth = depth_in(state)?;
    Ok(Task::Trace {
        file,
        trace,
        budget,
        depth,
    })
}

fn make<'a>(alloc: Global, pairs: &str, given: &Given<'_>) -> Result<Task<'a>, WordsError>
    ensures ok { IfOk result
        (λ t. making pairs.now (given_shape given.now) ≡ Some (task_shape t)) }
    ensures usage { IfErr result
        (λ e. e ≡ errors.Usage → making pairs.now (given_shape given.now) ≡ None) }
    ensures within { IfOk result (λ t. IsWithin (task_shape t)) }
{
    let pairs = number_in(pairs, 1, MOST_PAIRS).ok_or(WordsError::Usage)?;
    let settings = settings_in(alloc, given)?;
    Ok(Task::Make { pairs, settings })
}

fn depth_in(text: Option<&str>) -> Result<Option<u32>, WordsError>
    ensures ok { IfOk result (λ d. depth_of (text_behind text.entry) ≡ Some d) }
    ensures usage { IfErr result (λ _. depth_of (text_behind text.entry) ≡ None) }
    ensures within { IfOk result IsDepth }
{
    let Some(text) = text else {
        return Ok(None);
    };
    let Some(depth) = number_in(text, 0, MOST_DEPTH as u64) else {
        return Err(WordsError::Usage);
    };
    Ok(Some(depth as u32))
}

//! What a user sees of an end: its report without the first line and without the logs.

ghost use Rattle.std.specs.Prelude.{◌≡◌, ◌∷◌, ◌++◌, [], IfOk, OnOk, string_bytes};
ghost use Rattle.def_paths.specs.Outcomes.{WholeOutcome};
ghost use Rattle.run_ends.specs.Ends.{IsEndOf};
ghost use Rattle.outcomes_text.specs.Outcomes.{is_log_line, seen_among, text_seen};

use asp_model::Word;
use run_ends::RunEnd;
use run_report::render;
use std::alloc::{AllocError, Global};

/// What is seen of the end of a run, with the states of its activities if a depth is given.
pub fn seen_of(alloc: Global, end: &RunEnd, depth: Option<u32>) -> Result<String, AllocError>
    ensures seen { (o : WholeOutcome) → IsEndOf end.now o →
        IfOk result (λ s. string_bytes s ≡ text_seen depth o) }
{
    let lines = render(alloc, end, depth)?;
    match lines.split_first() {
        Some((_, others)) => without_logs(alloc, others),
        None => without_logs(alloc, &[]),
    }
}

// The lines that show no log, each with its line feed.
fn without_logs(alloc: Global, lines: &[Word]) -> Result<String, AllocError>
    ensures { IfOk result (λ s. string_bytes s ≡ seen_among lines.now) }
{
    let mut text = String::new(alloc);
    for line in lines {
        add_unless_log(&mut text, line.as_str())?;
    }
    Ok(text)
}

fn add_unless_log(text: &mut String, line: &str) -> Result<(), AllocError>
    ensures { OnOk result
        (string_bytes text.new ≡ string_bytes text.old ++ seen_among (line.now ∷ [])) }
{
    if is_log(line) {
        return Ok(());
    }
    text.push_str(line)?;
    text.push_str("\n")
}

fn is_log(line: &str) -> bool
    ensures { result ≡ is_log_line line.now }
{
    line.as_bytes().starts_with(b"senders")
}

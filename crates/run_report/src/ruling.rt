//! The lines of a report with the ruling on it.

ghost use Rattle.std.specs.Prelude.{◌≡◌, ◌++◌, codes, string_bytes, IfOk, OnOk};
ghost use Rattle.asp_model.specs.Report.{name_text};
ghost use Rattle.def_paths.specs.Outcomes.{WholeOutcome};
ghost use Rattle.determinacy.specs.Rulings.{ruling_shape};
ghost use Rattle.run_ends.specs.Ends.{IsEndOf};
ghost use Rattle.run_report.specs.Rulings.{RulingsArePassedOver, ruled_lines, ruling_lines};

use crate::report::render;
use asp_model::{ActivityName, Word};
use determinacy::{Ruling, rule};
use run_ends::RunEnd;
use state_lines::push_name;
use std::alloc::{AllocError, Global};

/// The lines of the report without states, and one more where the run ended: that every run of its
/// program that ends prints this report, or which activity's log is the first that leaves it open.
pub fn render_ruled(alloc: Global, end: &RunEnd) -> Result<Vec<Word>, AllocError>
    // for what the end of the run stands for
    ensures lines { (o : WholeOutcome) → IsEndOf end.now o →
        IfOk result (λ v. v.items ≡ ruled_lines o) }
{
    let mut lines = render(alloc, end, None)?;
    push_ruling(alloc, &mut lines, rule(&end.outcome))?;
    Ok(lines)
}

fn push_ruling(alloc: Global, lines: &mut Vec<Word>, ruling: Ruling<'_>) -> Result<(), AllocError>
    ensures { let added = ruling_lines (ruling_shape ruling.entry) in
        OnOk result (lines.new.items ≡ lines.old.items ++ added) }
{
    match ruling {
        Ruling::Determinate => {
            lines.push(Word::new(String::from_str(alloc, ". determinate")?))?;
        }
        Ruling::Open(name) => lines.push(Word::new(open_line(alloc, name)?))?,
        Ruling::NotEnded => {}
    }
    Ok(())
}

fn open_line(alloc: Global, name: &ActivityName) -> Result<String, AllocError>
    ensures { IfOk result (λ s. string_bytes s ≡ codes ". open " ++ name_text name.now) }
{
    let mut text = String::from_str(alloc, ". open ")?;
    push_name(&mut text, name)?;
    Ok(text)
}

/// A report with its ruling is read as the report is.
pub fn rulings_are_passed_over()
    ensures { RulingsArePassedOver }
{}

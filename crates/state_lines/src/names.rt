//! Names of activities and of futures, added to a text.

ghost use Rattle.std.specs.Prelude.{OnOk};
ghost use Rattle.std.specs.List.{flat_map};
ghost use Rattle.asp_model.specs.Report.{name_text, future_text};
ghost use Rattle.asp_model.specs.Shapes.{future_shape};
ghost use Rattle.state_lines.specs.Texts.{AddsText, dotted};

use asp_model::{ActivityName, FutureName};
use std::alloc::AllocError;

/// Adds the numbers of a name to the end of a text, with dots between them. Where memory runs out,
/// a part of them may stand there.
pub fn push_name(text: &mut String, name: &ActivityName) -> Result<(), AllocError>
    ensures name { OnOk result (AddsText text.old text.new (name_text name.now)) }
{
    match name.path() {
        [] => Ok(()),
        [first, rest @ ..] => {
            write!(text, "{first}")?;
            push_numbers(text, rest)
        }
    }
}

// The further numbers of a name.
fn push_numbers(text: &mut String, numbers: &[u32]) -> Result<(), AllocError>
    ensures { OnOk result (AddsText text.old text.new (flat_map dotted numbers.now)) }
{
    for number in numbers {
        write!(text, ".{number}")?;
    }
    Ok(())
}

/// The sender's name, and the number of the request behind a hash.
pub fn push_future(text: &mut String, future: &FutureName) -> Result<(), AllocError>
    ensures future { OnOk result
        (AddsText text.old text.new (future_text (future_shape future.now))) }
{
    push_name(text, &future.by)?;
    let index = future.index;
    write!(text, "#{index}")
}

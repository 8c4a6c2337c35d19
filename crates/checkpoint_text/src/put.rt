//! Numbers, texts and names behind a text, each item behind a space.
#![tactic(auto, using(crate::proofs::WritingLemmas::writing))]

ghost use Rattle.std.specs.Prelude.{OnOk, map};
ghost use Rattle.std.specs.Option.{option_map};
ghost use Rattle.asp_model.specs.Shapes.{future_shape, line_shape, reception_shape};
ghost use Rattle.checkpoint_text.specs.Items.{
  future_items,
  list_items,
  name_items,
  number_items,
  option_items,
  output_items,
  reception_items,
  signed_items,
  text_items,
};
ghost use Rattle.checkpoint_text.specs.Writing.{Adds};

use asp_model::{ActivityName, FutureName, Label, Line, Reception, Word};
use std::alloc::AllocError;

/// Writes a number.
pub fn put_number(text: &mut String, number: u64) -> Result<(), AllocError>
    ensures adds { OnOk result (Adds text.old (number_items number) text.new) }
{
    write!(text, " {number}")
}

/// Writes a number with its sign.
pub fn put_signed(text: &mut String, number: i64) -> Result<(), AllocError>
    ensures adds { OnOk result (Adds text.old (signed_items number) text.new) }
{
    write!(text, " {number}")
}

/// Writes a text.
pub fn put_text(text: &mut String, word: &str) -> Result<(), AllocError>
    ensures adds { OnOk result (Adds text.old (text_items word.now) text.new) }
{
    let bytes = word.as_bytes();
    put_number(text, bytes.len() as u64)?;
    for byte in bytes {
        put_number(text, u64::from(*byte))?;
    }
    Ok(())
}

/// Writes labels.
pub fn put_labels(text: &mut String, labels: &[Label]) -> Result<(), AllocError>
    ensures adds { let texts = map (λ l. l.text) labels.now in
        OnOk result (Adds text.old (list_items text_items texts) text.new) }
{
    put_number(text, labels.len() as u64)?;
    for label in labels {
        put_text(text, label.text.as_str())?;
    }
    Ok(())
}

/// Writes words.
pub fn put_words(text: &mut String, words: &[Word]) -> Result<(), AllocError>
    ensures adds { OnOk result (Adds text.old (list_items text_items words.now) text.new) }
{
    put_number(text, words.len() as u64)?;
    for word in words {
        put_text(text, word.as_str())?;
    }
    Ok(())
}

/// Writes a label, if there is one.
pub fn put_service(text: &mut String, label: &Option<Label>) -> Result<(), AllocError>
    ensures adds { let found = option_map (λ l. l.text) label.now in
        OnOk result (Adds text.old (option_items text_items found) text.new) }
{
    match label {
        None => put_number(text, 0),
        Some(label) => {
            put_number(text, 1)?;
            put_text(text, label.text.as_str())
        }
    }
}

/// Writes the name of an activity.
pub fn put_name(text: &mut String, name: &ActivityName) -> Result<(), AllocError>
    ensures adds { OnOk result (Adds text.old (name_items name.now) text.new) }
{
    let path = name.path();
    put_number(text, path.len() as u64)?;
    for number in path {
        put_number(text, u64::from(*number))?;
    }
    Ok(())
}

/// Writes the name of a future.
pub fn put_future(text: &mut String, future: &FutureName) -> Result<(), AllocError>
    ensures adds { OnOk result (Adds text.old (future_items (future_shape future.now)) text.new) }
{
    put_name(text, &future.by)?;
    put_number(text, u64::from(future.index))
}

/// Writes the name of a future, if there is one.
pub fn put_answer(text: &mut String, future: &Option<FutureName>) -> Result<(), AllocError>
    ensures adds { let found = option_map future_shape future.now in
        OnOk result (Adds text.old (option_items future_items found) text.new) }
{
    match future {
        None => put_number(text, 0),
        Some(future) => {
            put_number(text, 1)?;
            put_future(text, future)
        }
    }
}

/// Writes an entry of a log.
pub fn put_reception(text: &mut String, reception: &Reception) -> Result<(), AllocError>
    ensures adds { let shape = reception_shape reception.now in
        OnOk result (Adds text.old (reception_items shape) text.new) }
{
    match reception {
        Reception::From(sender) => {
            put_number(text, 0)?;
            put_name(text, sender)
        }
        Reception::Poll => put_number(text, 1),
    }
}

/// Writes a line of output.
pub fn put_output(text: &mut String, line: &Line) -> Result<(), AllocError>
    ensures adds { OnOk result (Adds text.old (output_items (line_shape line.now)) text.new) }
{
    match line {
        Line::Number(number) => {
            put_number(text, 0)?;
            put_signed(text, *number)
        }
        Line::Text(printed) => {
            put_number(text, 1)?;
            put_text(text, printed.as_str())
        }
    }
}

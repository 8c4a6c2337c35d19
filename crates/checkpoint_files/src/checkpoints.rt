//! A whole checkpoint, line by line.

ghost use Rattle.std.specs.Prelude.{◌≡◌, ◌∷◌, ◌++◌, codes};
ghost use Rattle.asp_model.specs.Names.{same_text};
ghost use Rattle.checkpoint_text.specs.Reading.{
  activities_read,
  body_read,
  lines_read,
  read_checkpoint as reading_of,
};
ghost use Rattle.checkpoint_items.specs.Answers.{Says};
ghost use Rattle.checkpoint_files.specs.Files.{
  Tells,
  activity_shapes,
  ends,
  texts,
};

use crate::activities::read_activity;
use crate::room::{behind_lines, has_few_lines, is_light};
use checkpoint_items::{ReadError, read_homes};
use checkpoint_parts::{ActivityText, CheckpointText};
use checkpoint_reading::read_values;
use std::alloc::Global;
use text_lines::cut;

/// What a checkpoint keeps, if the text is one of the program.
pub fn read_checkpoint(
    alloc: Global,
    program: &str,
    bytes: &[u8],
) -> Result<CheckpointText, ReadError>
    ensures reading { Tells (reading_of program.now bytes.now) result }
{
    if !has_few_lines(bytes) {
        return Err(ReadError::Memory);
    }
    let lines = cut(alloc, b'\n', bytes)?;
    read_lines(alloc, program, &lines)
}

// The first line is the same of all checkpoints, and the second has the program.
fn read_lines(alloc: Global, program: &str, lines: &[&[u8]]) -> Result<CheckpointText, ReadError>
    ensures reading { Tells (lines_read program.now (texts lines.now)) result }
{
    match lines {
        [title, shown, body @ ..] => {
            if !is_title(title) {
                return Err(ReadError::Malformed);
            }
            if !is_of(program, shown) {
                return Err(ReadError::OtherProgram);
            }
            read_within(alloc, body)
        }
        [] => Err(ReadError::Malformed),
        [_] => Err(ReadError::Malformed),
    }
}

fn is_title(line: &[u8]) -> bool
    ensures same { result ≡ same_text line.now (codes "asp checkpoint 1") }
{
    line == b"asp checkpoint 1".as_slice()
}

fn is_of(program: &str, line: &[u8]) -> bool
    ensures same { result ≡ same_text line.now (codes "program " ++ program.now) }
{
    match line.strip_prefix(b"program ".as_slice()) {
        Some(shown) => is_same(shown, program),
        None => false,
    }
}

fn is_same(shown: &[u8], program: &str) -> bool
    ensures same { result ≡ same_text shown.now program.now }
{
    shown == program.as_bytes()
}

// What weighs too much is refused before it is built, or before it is looked at.
fn read_within(alloc: Global, lines: &[&[u8]]) -> Result<CheckpointText, ReadError>
    ensures reading { Tells (body_read (texts lines.now)) result }
{
    let Some(weight) = behind_lines(lines) else {
        return Err(ReadError::Memory);
    };
    let file = read_body(alloc, lines)?;
    if is_light(&file, weight) {
        Ok(file)
    } else {
        Err(ReadError::Memory)
    }
}

fn read_body(alloc: Global, lines: &[&[u8]]) -> Result<CheckpointText, ReadError>
    ensures reading { Tells (body_read (texts lines.now)) result }
{
    match lines {
        [homes, values, activities @ ..] => read_parts(alloc, homes, values, activities),
        [] => Err(ReadError::Malformed),
        [_] => Err(ReadError::Malformed),
    }
}

fn read_parts(
    alloc: Global,
    second: &[u8],
    third: &[u8],
    lines: &[&[u8]],
) -> Result<CheckpointText, ReadError>
    ensures reading { Tells (body_read (second.now ∷ third.now ∷ texts lines.now)) result }
{
    let homes = read_homes(alloc, second)?;
    let values = read_values(alloc, third)?;
    let activities = read_activities(alloc, lines)?;
    Ok(CheckpointText {
        homes,
        values,
        activities,
    })
}

// Activities up to the line `end`.
fn read_activities(alloc: Global, lines: &[&[u8]]) -> Result<Vec<ActivityText>, ReadError>
    ensures read { Says (λ v. activity_shapes v.items) (activities_read (texts lines.now)) result }
{
    let mut activities = Vec::new(alloc);
    for i in 0..lines.len() {
        let line = lines[i];
        if is_end(line) {
            if !is_over(&lines[i + 1..]) {
                return Err(ReadError::Malformed);
            }
            return Ok(activities);
        }
        activities.push(read_activity(alloc, line)?)?;
    }
    Err(ReadError::Malformed)
}

fn is_end(line: &[u8]) -> bool
    ensures same { result ≡ same_text line.now (codes "end") }
{
    line == b"end".as_slice()
}

// Behind the line `end` there is one more, which is empty.
fn is_over(lines: &[&[u8]]) -> bool
    ensures over { result ≡ ends (texts lines.now) }
{
    match lines {
        [] => false,
        [last] => last.is_empty(),
        [_, _, ..] => false,
    }
}

//! The text of a checkpoint, in pieces.
#![tactic(auto)]

ghost use Rattle.std.specs.Prelude.{◌≡◌, ◌∷◌, ◌++◌, [], IfOk, OnOk, codes, map, string_bytes};
ghost use Rattle.std.specs.List.{concat};
ghost use Rattle.asp_model.specs.Configuration.{Configuration};
ghost use Rattle.asp_model.specs.History.{FirstShape};
ghost use Rattle.asp_model.specs.Shapes.{marked_of};
ghost use Rattle.asp_core.specs.Frozen.{AreFrozenIn, IsFrozenAt, StandsIn};
ghost use Rattle.checkpoint_text.specs.Lines.{checkpoint_text};
ghost use Rattle.law_frozen.specs.Frozen.{frozen_of};
ghost use Rattle.checkpoint_runs.specs.Saved.{
  AddsLines,
  activity_lines,
  head_lines,
  lines_but_end,
  program_text,
  text_in,
};

use asp_core::Frozen;
use asp_model::{ActivityName, Program};
use asp_print::print_program;
use code_reading::DecodeError;
use code_table::Code;
use frozen_runs::{activity_line, homes_line, values_line};
use std::alloc::{AllocError, Global};
use step_activity::Actor;

/// The bytes that a piece has at most, if it has more than one line.
pub const PIECE_BYTES: usize = 65_536;

/// The text of the checkpoint of a frozen run of this program, in pieces of `PIECE_BYTES`. A longer
/// line is a piece of its own.
pub fn write_checkpoint(
    alloc: Global,
    program: &Program,
    frozen: Frozen,
) -> Result<Vec<String>, DecodeError>
    ensures text { let program = program_text (marked_of program.now.root) in
        (x : FirstShape) → StandsIn frozen x →
        let saved = checkpoint_text program (frozen_of x.names x.configuration) in
        IfOk result (λ v. concat (map string_bytes v.items) ≡ saved) }
{
    let mut pieces = Vec::new(alloc);
    put_frozen(alloc, program, frozen, &mut pieces)?;
    put_text(alloc, "end", &mut pieces)?;
    Ok(pieces)
}

// The lines of what is frozen, and those before.
fn put_frozen(
    alloc: Global,
    program: &Program,
    frozen: Frozen,
    pieces: &mut Vec<String>,
) -> Result<(), DecodeError>
    ensures adds { let program = program_text (marked_of program.now.root) in
        (x : FirstShape) → StandsIn frozen x →
        OnOk result (AddsLines pieces.old.items (lines_but_end program x) pieces.new.items) }
{
    match put_head(alloc, program, &frozen, pieces) {
        Ok(()) => {
            put_taken(alloc, frozen, pieces)?;
            Ok(())
        }
        Err(error) => {
            drop(frozen);
            Err(error)
        }
    }
}

fn put_taken(alloc: Global, frozen: Frozen, pieces: &mut Vec<String>) -> Result<(), DecodeError>
    ensures adds { (x : FirstShape) → StandsIn frozen x →
        let texts = activity_lines x.configuration x.names in
        OnOk result (AddsLines pieces.old.items texts pieces.new.items) }
{
    let Frozen {
        code,
        homes,
        futures,
        activities,
    } = frozen;
    drop(homes);
    drop(futures);
    put_activities(alloc, &code, activities, pieces)?;
    Ok(())
}

// The lines before those of activities.
fn put_head(
    alloc: Global,
    program: &Program,
    frozen: &Frozen,
    pieces: &mut Vec<String>,
) -> Result<(), DecodeError>
    ensures adds { let program = program_text (marked_of program.now.root) in
        (x : FirstShape) → StandsIn frozen.now x →
        OnOk result (AddsLines pieces.old.items (head_lines program x) pieces.new.items) }
{
    put_text(alloc, "asp checkpoint 1", pieces)?;
    put_program(alloc, program, pieces)?;
    let homes = homes_line(alloc, &frozen.homes)?;
    put_line(homes, pieces)?;
    let values = values_line(alloc, &frozen.futures)?;
    put_line(values, pieces)?;
    Ok(())
}

fn put_program(alloc: Global, program: &Program, pieces: &mut Vec<String>) -> Result<(), AllocError>
    ensures adds { let program = program_text (marked_of program.now.root) in
        let line = codes "program " ++ program in
        OnOk result (AddsLines pieces.old.items (line ∷ []) pieces.new.items) }
{
    let text = print_program(alloc, program)?;
    let mut line = String::from_str(alloc, "program ")?;
    line.push_str(&text)?;
    put_line(line, pieces)
}

// The lines of activities, each from its parts.
fn put_activities(
    alloc: Global,
    code: &Code,
    activities: Vec<(ActivityName, Box<Actor>)>,
    pieces: &mut Vec<String>,
) -> Result<(), DecodeError>
    ensures adds { (c : Configuration) → AreFrozenIn code.now c activities.items →
        let texts = activity_lines c (map (λ e. e.0) activities.items) in
        OnOk result (AddsLines pieces.old.items texts pieces.new.items) }
{
    for (name, actor) in activities {
        put_activity(alloc, code, &name, Box::into_inner(actor), pieces)?;
    }
    Ok(())
}

fn put_activity(
    alloc: Global,
    code: &Code,
    name: &ActivityName,
    actor: Actor,
    pieces: &mut Vec<String>,
) -> Result<(), DecodeError>
    ensures adds { (c : Configuration) → IsFrozenAt code.now c name.now actor →
        let texts = activity_lines c (name.now ∷ []) in
        OnOk result (AddsLines pieces.old.items texts pieces.new.items) }
{
    let parts = actor.into_parts(alloc)?;
    let line = activity_line(alloc, code, name, &parts)?;
    put_line(line, pieces)?;
    Ok(())
}

fn put_text(alloc: Global, text: &str, pieces: &mut Vec<String>) -> Result<(), AllocError>
    ensures adds { OnOk result (AddsLines pieces.old.items (text.now ∷ []) pieces.new.items) }
{
    put_line(String::from_str(alloc, text)?, pieces)
}

// One line more, with its line feed.
fn put_line(line: String, pieces: &mut Vec<String>) -> Result<(), AllocError>
    ensures adds { let lines = string_bytes line ∷ [] in
        OnOk result (AddsLines pieces.old.items lines pieces.new.items) }
{
    let mut line = line;
    line.push_str("\n")?;
    match pieces.pop() {
        Some(last) => put_behind(last, line, pieces)?,
        None => pieces.push(line)?,
    }
    Ok(())
}

// A piece, and a text behind it, as one if that is short.
fn put_behind(last: String, text: String, pieces: &mut Vec<String>) -> Result<(), AllocError>
    ensures adds { let both = string_bytes last ++ string_bytes text in
        OnOk result (text_in pieces.new.items ≡ text_in pieces.old.items ++ both) }
{
    let mut last = last;
    if text.len() <= PIECE_BYTES && last.len() <= PIECE_BYTES - text.len() {
        last.push_str(&text)?;
        pieces.push(last)?;
    } else {
        pieces.push(last)?;
        pieces.push(text)?;
    }
    Ok(())
}

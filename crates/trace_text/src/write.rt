//! A journal as text.

ghost use Rattle.std.specs.Prelude.{◌≡◌, [], map, string_bytes, true, IfOk, OnOk};
ghost use Rattle.std.specs.List.{concat, list_all};
ghost use Rattle.asp_model.specs.Report.{text_of, with_feed};
ghost use Rattle.asp_model.specs.Shapes.{delivery_shape, entry_shape};
ghost use Rattle.asp_model.specs.History.{Delivered};
ghost use Rattle.state_lines.specs.Texts.{AddsText};
ghost use Rattle.trace_text.specs.Pieces.{text_in};
ghost use Rattle.trace_text.specs.Traces.{entry_line, has_numbers, trace_of};

use crate::numbers::fits;
use asp_model::{Delivery, Entry};
use state_lines::{push_future, push_name};
use std::alloc::{AllocError, Global};
use std::mem;

/// The bytes after which a piece of a trace has no further line.
pub const PIECE_BYTES: usize = 65_536;

// The room of a piece, so that most lines fit behind its last full byte.
const PIECE_ROOM: usize = 65_792;

/// The text of a trace, in pieces that have at most one line more than `PIECE_BYTES`.
pub fn write_trace(alloc: Global, journal: &[Entry]) -> Result<Vec<String>, AllocError>
    ensures text { let text = trace_of (map entry_shape journal.now) in
        IfOk result (λ v. concat (map string_bytes v.items) ≡ text) }
    // as their types have them
    ensures numbers { let fit = list_all has_numbers (map entry_shape journal.now) in
        IfOk result (λ _. fit ≡ true) }
{
    let mut pieces = Pieces::new(alloc)?;
    pieces.last.push_str("asp trace 1\n")?;
    for entry in journal {
        pieces.turn(alloc)?;
        fits(entry);
        push_entry(&mut pieces.last, entry)?;
    }
    pieces.last.push_str("end\n")?;
    pieces.all()
}

/// Full pieces, and one that is written.
#[derive(Drop)]
struct Pieces {
    full: Vec<String>,
    last: String,
}

impl Pieces {
    fn new(alloc: Global) -> Result<Pieces, AllocError>
        ensures { IfOk result (λ p. text_in p ≡ []) }
    {
        Ok(Pieces {
            full: Vec::new(alloc),
            last: String::with_capacity(alloc, PIECE_ROOM)?,
        })
    }

    // A further piece is begun where the last is full.
    fn turn(&mut self, alloc: Global) -> Result<(), AllocError>
        ensures { OnOk result (text_in self.new ≡ text_in self.old) }
    {
        if self.last.len() < PIECE_BYTES {
            return Ok(());
        }
        let next = String::with_capacity(alloc, PIECE_ROOM)?;
        let full = mem::replace(&mut self.last, next);
        self.full.push(full)?;
        Ok(())
    }

    fn all(self) -> Result<Vec<String>, AllocError>
        ensures { IfOk result (λ v. concat (map string_bytes v.items) ≡ text_in self) }
    {
        let Pieces { mut full, last } = self;
        full.push(last)?;
        Ok(full)
    }
}

// Adds the line of an entry, with its line feed.
fn push_entry(text: &mut String, entry: &Entry) -> Result<(), AllocError>
    ensures { let line = with_feed (entry_line (entry_shape entry.now)) in
        OnOk result (AddsText text.old text.new line) }
{
    match entry {
        Entry::Lent(number) => write!(text, "lent {number}\n"),
        Entry::Committed { number, reductions } => {
            write!(text, "committed {number} {reductions}\n")
        }
        Entry::Delivered(delivery) => push_delivery(text, delivery),
    }
}

fn push_delivery(text: &mut String, delivery: &Delivery) -> Result<(), AllocError>
    ensures { let line = with_feed (entry_line (Delivered (delivery_shape delivery.now))) in
        OnOk result (AddsText text.old text.new line) }
{
    match delivery {
        Delivery::Edge { future, from, to } => {
            text.push_str("edge ")?;
            push_future(text, future)?;
            text.push_str(" ")?;
            push_name(text, from)?;
            text.push_str(" ")?;
            push_name(text, to)?;
            text.push_str("\n")
        }
        Delivery::Need { future, to, loc } => {
            text.push_str("need ")?;
            push_future(text, future)?;
            text.push_str(" ")?;
            push_name(text, to)?;
            write!(text, " {loc}\n")
        }
    }
}

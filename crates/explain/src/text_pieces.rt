//! A text that is told piece by piece: whoever tells asks at the end alone whether memory lasted.

ghost use Rattle.std.specs.Prelude.{◌≡◌, ◌++◌, [], IfOk, IsErr, IsFalse, IsTrue, string_bytes};
ghost use Rattle.std.specs.Fmt.{decimal, signed_decimal};
ghost use Rattle.asp_model.specs.Report.{future_text, name_text};
ghost use Rattle.asp_model.specs.Shapes.{future_shape};

use asp_model::{ActivityName, FutureName, Line};
use state_lines::{push_future, push_name};
use std::alloc::{AllocError, Global};

/// What was told. It is spent once memory was refused for a piece, and is not given then.
#[derive(Drop)]
pub struct Telling {
    pub text: String,
    pub is_spent: bool,
}

impl Telling {
    /// Nothing was told.
    pub fn new(alloc: Global) -> Telling
        ensures text { string_bytes result.text ≡ [] }
        ensures fresh { IsFalse result.is_spent }
    {
        Telling {
            text: String::new(alloc),
            is_spent: false,
        }
    }

    /// One piece more.
    pub fn push(&mut self, piece: &str)
        ensures text { IsFalse self.new.is_spent →
            string_bytes self.new.text ≡ string_bytes self.old.text ++ piece.now }
        ensures spent { IsTrue self.old.is_spent → IsTrue self.new.is_spent }
    {
        if self.text.push_str(piece).is_err() {
            self.is_spent = true;
        }
    }

    /// A count.
    pub fn push_count(&mut self, count: u64)
        ensures text { IsFalse self.new.is_spent →
            string_bytes self.new.text ≡ string_bytes self.old.text ++ decimal count }
        ensures spent { IsTrue self.old.is_spent → IsTrue self.new.is_spent }
    {
        let text = &mut self.text;
        if write!(text, "{count}").is_err() {
            self.is_spent = true;
        }
    }

    /// A number of a program.
    pub fn push_number(&mut self, number: i64)
        ensures text { IsFalse self.new.is_spent →
            string_bytes self.new.text ≡ string_bytes self.old.text ++ signed_decimal number }
        ensures spent { IsTrue self.old.is_spent → IsTrue self.new.is_spent }
    {
        let text = &mut self.text;
        if write!(text, "{number}").is_err() {
            self.is_spent = true;
        }
    }

    /// The name of an activity.
    pub fn push_name(&mut self, name: &ActivityName)
        ensures text { IsFalse self.new.is_spent →
            string_bytes self.new.text ≡ string_bytes self.old.text ++ name_text name.now }
        ensures spent { IsTrue self.old.is_spent → IsTrue self.new.is_spent }
    {
        if push_name(&mut self.text, name).is_err() {
            self.is_spent = true;
        }
    }

    /// The name of a future.
    pub fn push_future(&mut self, future: &FutureName)
        ensures text { IsFalse self.new.is_spent → string_bytes self.new.text
            ≡ string_bytes self.old.text ++ future_text (future_shape future.now) }
        ensures spent { IsTrue self.old.is_spent → IsTrue self.new.is_spent }
    {
        if push_future(&mut self.text, future).is_err() {
            self.is_spent = true;
        }
    }

    /// What a write to its text answered.
    pub fn note(&mut self, done: Result<(), AllocError>)
        ensures text { self.new.text ≡ self.old.text }
        ensures refused { IsErr done → IsTrue self.new.is_spent }
        ensures spent { IsTrue self.old.is_spent → IsTrue self.new.is_spent }
    {
        if done.is_err() {
            self.is_spent = true;
        }
    }

    /// The text, if all pieces are in it.
    pub fn whole(self) -> Result<String, AllocError>
        ensures text { IfOk result (λ t. t ≡ self.text × IsFalse self.is_spent) }
    {
        if self.is_spent {
            Err(AllocError)
        } else {
            Ok(self.text)
        }
    }
}

/// Adds a line to a text, as reports have it.
pub fn push_line(text: &mut Telling, line: &Line) {
    match line {
        Line::Number(number) => {
            text.push("> ");
            text.push_number(*number);
        }
        Line::Text(word) => {
            text.push("| ");
            text.push(word.as_str());
        }
    }
}

//! The items of a line, one by one.

ghost use Rattle.std.specs.Prelude.{◌≡◌, ◌∷◌};
ghost use Rattle.asp_model.specs.ReportLines.{parts};
ghost use Rattle.checkpoint_items.specs.Answers.{IsTaken, items_in};

use std::marker::Model;

/// The items of a line that are not read.
#[derive(Drop)]
pub struct Items<'a> {
    rest: Option<&'a [u8]>,
}

impl<'a> Model for Items<'a> {
    ghost use Rattle.std.specs.Prelude.{List, ℕ};
    ghost use Rattle.checkpoint_items.specs.Answers.{items_in};

    ghost Value = { List (List ℕ) };

    ghost view = { λ x. items_in x.rest };
}

impl<'a> Items<'a> {
    /// The items of a line.
    pub fn new(line: &'a [u8]) -> Items<'a>
        ensures items { result ≡ parts 32 line.now }
    {
        Items { rest: Some(line) }
    }

    /// The first item, if there is one.
    pub fn take(&mut self) -> Option<&'a [u8]>
        ensures taken { IsTaken self.old result self.new }
    {
        let text = self.rest?;
        let (item, rest) = cut_first(text);
        self.rest = rest;
        Some(item)
    }
}

// What stands before the first space, and behind it.
fn cut_first(text: &[u8]) -> (&[u8], Option<&[u8]>)
    ensures { parts 32 text.now ≡ result.0.now ∷ items_in result.1 }
{
    for i in 0..text.len() {
        if text[i] == b' ' {
            return (&text[..i], Some(&text[i + 1..]));
        }
    }
    (text, None)
}

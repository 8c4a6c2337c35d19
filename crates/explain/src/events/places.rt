//! Places of a program's text, as people read them.

use crate::text_pieces::Telling;
use std::alloc::Global;
use std::collections::BTreeMap;
use text_places::{Position, position_of};

/// A text, and the places of it that were asked for: each is looked for once.
#[derive(Drop)]
pub struct Places<'a> {
    file: &'a str,
    bytes: &'a [u8],
    known: BTreeMap<usize, Position>,
}

impl<'a> Places<'a> {
    /// The places of the text in a file.
    pub fn new(alloc: Global, file: &'a str, bytes: &'a [u8]) -> Places<'a> {
        Places {
            file,
            bytes,
            known: BTreeMap::new(alloc),
        }
    }

    // The line and the column of a byte. One that memory is refused for is looked for again.
    fn position(&mut self, at: usize) -> Position {
        if let Some(position) = self.known.get(&at) {
            return *position;
        }
        let position = position_of(self.bytes, at);
        let _kept = self.known.insert(at, position);
        position
    }

    /// Adds where a byte stands to a text.
    pub fn push(&mut self, text: &mut Telling, at: Option<usize>) {
        let Some(at) = at else {
            return;
        };
        let Position { line, column } = self.position(at);
        text.push(" at ");
        text.push(self.file);
        text.push(":");
        text.push_count(line as u64);
        text.push(":");
        text.push_count(column as u64);
    }
}

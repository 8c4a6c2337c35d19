//! The journal: a list of entries that only grows.

ghost use Rattle.std.specs.Prelude.{◌≡◌, ◌+◌, ◌∷◌, ◌++◌, ◌<◌, ◌≤◌, [], OnOk, Option, length, map};
ghost use Rattle.asp_model.specs.History.{BeginsWith, FirstShape};
ghost use Rattle.asp_model.specs.Shapes.{entry_shape};
ghost use Rattle.core_state.specs.Journal.{entries_in, history_in, room};

use asp_model::{Entry, Start};
use std::alloc::{AllocError, Global};
use std::mem::size_of;

// An entry is small: a delivery stands in a box.
const _: () = prove!(size_of::<Entry>() <= 32);

/// The entries since a start, oldest first.
#[derive(Drop)]
pub struct Journal {
    entries: Vec<Entry>,
}

impl Journal {
    /// No entry.
    pub fn new(alloc: Global) -> Journal
        ensures entries { entries_in result ≡ [] }
    {
        Journal {
            entries: Vec::new(alloc),
        }
    }

    /// Makes room for so many entries more.
    pub fn reserve(&mut self, more: usize) -> Result<(), AllocError>
        ensures entries { entries_in self.new ≡ entries_in self.old }
        ensures room { OnOk result (more ≤ room self.new) }
        ensures kept { room self.old ≤ room self.new }
    {
        self.entries.reserve(more)
    }

    /// One entry more, for which there is room. It takes no memory.
    #[inline(always)]
    pub fn note(&mut self, entry: Entry)
        requires room { 0 < room self.old }
        ensures entries { entries_in self.new ≡ entries_in self.old ++ entry_shape entry ∷ [] }
        ensures room { room self.old ≤ room self.new + 1 }
        ensures begins { (start : Start) (first : Option FirstShape) →
            BeginsWith (history_in start first self.new) (history_in start first self.old) }
    {
        let _ = self.entries.push(entry);
    }

    /// How many entries there are.
    pub fn len(&self) -> usize
        ensures len { result ≡ length (entries_in self.now) }
    {
        self.entries.len()
    }

    /// All entries, oldest first.
    pub fn entries(&self) -> &[Entry]
        ensures entries { map entry_shape result.now ≡ entries_in self.now }
    {
        &self.entries
    }
}

//! Futures, as all who hold one share them, and what a holder has seen of a future's value.

ghost use Rattle.std.specs.Prelude.{◌≡◌, None, Some};
ghost use Rattle.std.specs.Option.{MatchOption};
ghost use Rattle.once_cell.specs.Once.{Agrees};
ghost use Rattle.code_table.specs.Seen.{IsOf, seen_by};

use crate::answer::Answer;
use asp_model::FutureName;
use once_cell::race::{Note, OnceBox};
use std::alloc::Global;
use std::mem::size_of;

/// A future: its name, its number in the table of futures, and its value once that is shown. The
/// number is a hint: whoever looks a future up by it compares the name.
#[derive(Drop)]
pub struct Future {
    pub name: FutureName,
    pub number: u32,
    pub(crate) answer: OnceBox<Answer>,
}

// What a future costs whose value nobody reads.
const _: () = prove!(size_of::<OnceBox<Answer>>() == 8);

/// What a holder has seen of a future's value: nothing, or the value. It takes no bytes.
#[derive(Drop)]
pub struct Sighting {
    pub(crate) note: Note<Answer>,
}

impl Future {
    /// A future whose value nobody has shown.
    pub fn new(alloc: Global, name: FutureName, number: u32) -> Future
        ensures name { result.name ≡ name }
        ensures number { result.number ≡ number }
    {
        Future {
            name,
            number,
            answer: OnceBox::new(alloc),
        }
    }

    /// Shows the value to all who hold the future, unless one is shown.
    pub fn show(&self, answer: Box<Answer>) {
        let _shown = self.answer.set(answer);
    }

    /// Nothing is seen at first.
    pub fn sighting(&self) -> Sighting
        ensures of { IsOf self.now result }
        ensures seen { seen_by result ≡ None }
    {
        Sighting {
            note: self.answer.note(),
        }
    }

    /// The value, if it is shown. Who has seen one sees this one always. It takes no memory.
    pub fn peek<'a>(&'a self, sighting: &mut Sighting) -> Option<&'a Answer>
        requires of { IsOf self.now sighting.old }
        ensures of { IsOf self.now sighting.new }
        ensures value { MatchOption result
            ((seen_by sighting.old ≡ None) × (seen_by sighting.new ≡ None))
            (λ r. (seen_by sighting.new ≡ Some r.now) × Agrees (seen_by sighting.old) r.now) }
    {
        self.answer.get_as(&mut sighting.note)
    }
}

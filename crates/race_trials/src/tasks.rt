//! What the seats of a test share: tasks that some make and others take, and a count of the turns.

ghost use Rattle.std.specs.Prelude.{None};
ghost use Rattle.asp_model.specs.History.{no_history};

use std::alloc::{AllocError, Global};
use turn_hub::Lends;

#[derive(Drop)]
pub struct Tasks {
    /// How many tasks were made and not taken.
    pub left: u64,
    /// How many turns of each seat counted.
    pub turns: Vec<u64>,
}

impl Tasks {
    /// No task, and no turn of so many seats.
    pub fn new(alloc: Global, seats: u32) -> Result<Tasks, AllocError> {
        Ok(Tasks {
            left: 0,
            turns: Vec::from_elem(alloc, 0, seats as usize)?,
        })
    }

    /// The turn of a seat that makes a task.
    pub fn make(&mut self, seat: u32) {
        self.left = self.left.wrapping_add(1);
        self.count(seat);
    }

    /// The turn of a seat that takes one, if there is one.
    pub fn try_take(&mut self, seat: u32) -> bool {
        if self.left == 0 {
            return false;
        }
        self.left -= 1;
        self.count(seat);
        true
    }

    fn count(&mut self, seat: u32) {
        if let Some(turns) = self.turns.get_mut(seat as usize) {
            *turns = turns.wrapping_add(1);
        }
    }
}

impl Lends for Tasks {
    ghost history = { λ _. no_history };

    ghost out = { λ _ _. None };

    ghost keeps = { λ _ _. Unit {0} };
}

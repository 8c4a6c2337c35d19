//! A policy that answers from a list.

ghost use Rattle.std.specs.Prelude.{◌≡◌, ◌≤◌, ◌<◌, ◌+◌, length};
ghost use Rattle.asp_model.specs.Shapes.{choice_shape};
ghost use Rattle.update_policy.specs.Scripts.{answer_at};

use crate::UpdatePolicy;
use asp_model::{ActivityName, Choice, FutureName};

/// Answers, in the order in which they are given.
#[derive(Drop)]
pub struct Answers {
    pub choices: Vec<Choice>,
}

impl Answers {
    /// How many there are.
    pub fn len(&self) -> u64
        ensures count { result ≡ length self.now.choices.items }
    {
        self.choices.len() as u64
    }

    /// The answer at a place; past the end Leave.
    pub fn at(&self, place: u64) -> Choice
        ensures answer { choice_shape result ≡ answer_at self.now.choices.items place }
    {
        match self.choices.get(place as usize) {
            Some(choice) => *choice,
            None => Choice::Leave,
        }
    }
}

/// Gives its answers in order, and leaves the values that come after. So a caller can have any
/// policy, one answer at a time.
#[derive(Drop)]
pub struct ScriptPolicy {
    pub answers: Answers,
    /// The place of the answer that comes next.
    pub next: u64,
}

impl UpdatePolicy for ScriptPolicy {
    ghost answer = { λ p _ _ _. answer_at p.answers.choices.items p.next };

    ghost asked = { λ p. p.next };

    fn choose(&mut self, _future: &FutureName, _from: &ActivityName, _to: &ActivityName) -> Choice
        ensures answer { choice_shape result
            ≡ answer_at self.old.answers.choices.items self.old.next }
        ensures asked { self.new.next ≤ self.old.next + 1 }
        ensures next { self.old.next < length self.old.answers.choices.items →
            self.new.next ≡ self.old.next + 1 }
        ensures ended { length self.old.answers.choices.items ≤ self.old.next →
            self.new.next ≡ self.old.next }
        ensures answers { self.new.answers ≡ self.old.answers }
    {
        let answer = self.answers.at(self.next);
        if self.next < self.answers.len() {
            self.next += 1;
        }
        answer
    }
}

//! What a policy is. It is asked at most once for each edge, and may change as it answers.

ghost use Rattle.std.specs.Prelude.{◌≡◌, ◌≤◌, ◌+◌, ℕ};
ghost use Rattle.asp_model.specs.History.{ChoiceShape};
ghost use Rattle.asp_model.specs.Names.{FutureShape, Name};
ghost use Rattle.asp_model.specs.Shapes.{choice_shape, future_shape};

use asp_model::{ActivityName, Choice, FutureName};

/// Chooses how an activity comes by the value of a future that another one passed to it. A call
/// takes no memory.
pub trait UpdatePolicy {
    /// What the value, as it is now, answers for a future and the two ends of an edge.
    ghost answer: { Self → FutureShape → (from to : Name) → ChoiceShape };

    /// How often it was asked, where the value keeps count.
    ghost asked: { Self → ℕ } = { λ _. 0 };

    /// Answers for an edge. The value may be another one then.
    fn choose(&mut self, future: &FutureName, from: &ActivityName, to: &ActivityName) -> Choice
        ensures answer { choice_shape result
            ≡ answer self.old (future_shape future.now) from.now to.now }
        ensures asked { asked self.new ≤ asked self.old + 1 };
}

/// A policy of any kind.
pub type PolicyBox = Box<dyn UpdatePolicy + Send + Drop>;

/// A box is asked what it holds.
impl UpdatePolicy for PolicyBox {
    ghost answer = { λ b. (UpdatePolicy-box b).answer b.value };

    ghost asked = { λ b. (UpdatePolicy-box b).asked b.value };

    fn choose(&mut self, future: &FutureName, from: &ActivityName, to: &ActivityName) -> Choice {
        (**self).choose(future, from, to)
    }
}

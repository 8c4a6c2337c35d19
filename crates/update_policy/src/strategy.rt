//! The boxes of a run, and which of them is asked.

ghost use Rattle.std.specs.Prelude.{◌≡◌};
ghost use Rattle.asp_model.specs.Shapes.{choice_shape, future_shape};
ghost use Rattle.update_policy.specs.Strategies.{IsAlikeBeside, policy_of};

use crate::{PolicyBox, UpdatePolicy};
use asp_model::{ActivityName, Choice, FutureName};

/// Which of the policies is asked.
#[derive(Clone, Copy, PartialEq, Eq)]
pub enum Strategy {
    Lazy,
    Forward,
    Message,
}

/// The policies of a run. A strategy names the one that is asked, whatever the caller put there.
#[derive(Drop)]
pub struct Policies<P = PolicyBox> {
    pub lazy: P,
    pub forward: P,
    pub message: P,
}

impl<P: UpdatePolicy> Policies<P> {
    /// Asks the policy of a strategy.
    pub fn choose(
        &mut self,
        strategy: Strategy,
        future: &FutureName,
        from: &ActivityName,
        to: &ActivityName,
    ) -> Choice
        ensures answer { let asked = policy_of strategy self.old in
            choice_shape result ≡ P.answer asked (future_shape future.now) from.now to.now }
        ensures others { IsAlikeBeside strategy self.old self.new }
    {
        match strategy {
            Strategy::Lazy => self.lazy.choose(future, from, to),
            Strategy::Forward => self.forward.choose(future, from, to),
            Strategy::Message => self.message.choose(future, from, to),
        }
    }
}

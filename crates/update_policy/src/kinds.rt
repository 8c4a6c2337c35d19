//! Policies that a run can take.

ghost use Rattle.std.specs.Prelude.{◌≡◌, ◌-◌};
ghost use Rattle.asp_model.specs.Shapes.{choice_shape};
ghost use Rattle.update_policy.specs.Budgets.{by_budget};

use crate::UpdatePolicy;
use asp_model::{ActivityName, Choice, FutureName};

/// Leaves each value until it is needed.
#[derive(Clone, Copy, Drop)]
pub struct LazyPolicy;

/// Has each value handed on along the way that its future went.
#[derive(Clone, Copy, Drop)]
pub struct ForwardPolicy;

/// Has each value sent from its home.
#[derive(Clone, Copy, Drop)]
pub struct MessagePolicy;

/// Has so many values sent from their homes, and leaves those that come after.
#[derive(Drop)]
pub struct BudgetedPolicy {
    pub left: u64,
}

impl UpdatePolicy for LazyPolicy {
    ghost use Rattle.asp_model.specs.History.{Leave};

    ghost answer = { λ _ _ _ _. Leave };

    fn choose(&mut self, _future: &FutureName, _from: &ActivityName, _to: &ActivityName) -> Choice {
        Choice::Leave
    }
}

impl UpdatePolicy for ForwardPolicy {
    ghost use Rattle.asp_model.specs.History.{Forward};

    ghost answer = { λ _ _ _ _. Forward };

    fn choose(&mut self, _future: &FutureName, _from: &ActivityName, _to: &ActivityName) -> Choice {
        Choice::Forward
    }
}

impl UpdatePolicy for MessagePolicy {
    ghost use Rattle.asp_model.specs.History.{FromHome};

    ghost answer = { λ _ _ _ _. FromHome };

    fn choose(&mut self, _future: &FutureName, _from: &ActivityName, _to: &ActivityName) -> Choice {
        Choice::FromHome
    }
}

impl UpdatePolicy for BudgetedPolicy {
    ghost answer = { λ p _ _ _. by_budget p.left };

    fn choose(&mut self, _future: &FutureName, _from: &ActivityName, _to: &ActivityName) -> Choice
        ensures answer { choice_shape result ≡ by_budget self.old.left }
        ensures left { self.new.left ≡ self.old.left - 1 }
    {
        if self.left == 0 {
            return Choice::Leave;
        }
        self.left -= 1;
        Choice::FromHome
    }
}

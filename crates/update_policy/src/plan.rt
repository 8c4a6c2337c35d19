//! Which strategy each future has.

ghost use Rattle.std.specs.Prelude.{◌≡◌, []};
ghost use Rattle.update_policy.specs.Plans.{plan_shape, strategy_by, text_of};

use crate::strategy::Strategy;
use asp_model::Label;
use std::alloc::Global;

/// Which strategy futures have: that of their request's label, where that is listed.
#[derive(Drop)]
pub struct Plan {
    /// Of all other futures.
    pub strategy: Strategy,
    pub by_label: Vec<(Label, Strategy)>,
}

impl Plan {
    /// One strategy for all futures.
    pub fn of(alloc: Global, strategy: Strategy) -> Plan
        ensures plan { plan_shape result ≡ record { strategy = strategy; by_label = [] } }
    {
        Plan {
            strategy,
            by_label: Vec::new(alloc),
        }
    }

    /// The strategy of the future of a request with this label.
    pub fn strategy_of(&self, label: &Label) -> Strategy
        ensures strategy { result ≡ strategy_by (plan_shape self.now) (text_of label.now) }
    {
        for pair in &self.by_label {
            if pair.0 == *label {
                return pair.1;
            }
        }
        self.strategy
    }
}

//! Who is lent, and who is next.

ghost use Rattle.std.specs.Prelude.{◌≡◌, ◌<◌, IfSome, None, true};
ghost use Rattle.asp_model.specs.History.{BeginsWith};
ghost use Rattle.def_journals.specs.Journals.{RunShape};
ghost use Rattle.core_state.specs.Lending.{IsNextReady};
ghost use Rattle.asp_core.specs.Calls.{IsLentBy};
ghost use Rattle.asp_core.specs.Chosen.{StaysChosen};
ghost use Rattle.asp_core.specs.Cores.{IsKept, IsRun, activities_of, code_of, history_of};
ghost use Rattle.asp_core.specs.Plans.{StayByPlan};
ghost use Rattle.asp_core.specs.Stopping.{StaysStopped};

use crate::cores::Core;
use core_state::Lease;
use update_policy::UpdatePolicy;

impl<P: UpdatePolicy> Core<P> {
    /// The least number that `lend` would give.
    pub fn next_ready(&self) -> Option<u32>
        requires kept { IsKept self.now }
        ensures next { (s : RunShape) → IsRun self.now s → IsNextReady s result }
        ensures spent { self.now.spent ≡ true → result ≡ None }
        ensures known { IfSome result (λ number. number < activities_of self.now) }
    {
        if self.spent {
            return None;
        }
        self.state.next_ready()
    }

    /// Lends an activity that is in, can step and lacks nothing, with a grant of what is left of
    /// the budget up to the most. It takes no memory.
    pub fn lend(&mut self, number: u32) -> Option<Lease>
        requires kept { IsKept self.old }
        requires known { number < activities_of self.old }
        ensures lent { (s : RunShape) → IsRun self.old s →
            IsLentBy self.old s number result self.new }
        ensures by_plan { StayByPlan P.answer P.asked self.old.edges self.new.edges }
        ensures chosen { StaysChosen self.old self.new }
        ensures stopped { StaysStopped (history_of self.old) (history_of self.new) }
        ensures spent { self.old.spent ≡ true → (result ≡ None) × (self.new ≡ self.old) }
        ensures kept { IsKept self.new }
        ensures begins { BeginsWith (history_of self.new) (history_of self.old) }
        ensures code { code_of self.new ≡ code_of self.old }
    {
        if self.spent {
            return None;
        }
        let Some(lease) = self.state.lend(number) else {
            return None;
        };
        self.edges.lent(number);
        Some(lease)
    }
}

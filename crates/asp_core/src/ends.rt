//! The verdict of a core.

ghost use Rattle.std.specs.Prelude.{◌≡◌, None, true};
ghost use Rattle.std.specs.Option.{option_map};
ghost use Rattle.asp_model.specs.Shapes.{verdict_shape};
ghost use Rattle.def_journals.specs.Journals.{RunShape};
ghost use Rattle.asp_core.specs.Calls.{verdict_of};
ghost use Rattle.asp_core.specs.Cores.{IsKept, IsRun};

use crate::cores::Core;
use asp_model::Verdict;
use update_policy::UpdatePolicy;

impl<P: UpdatePolicy + Drop> Core<P> {
    /// The verdict, where nobody is out, nothing is owed, and nobody can step while some budget is
    /// left.
    pub fn verdict(&self) -> Option<Verdict>
        requires kept { IsKept self.now }
        ensures verdict { (s : RunShape) → IsRun self.now s →
            option_map verdict_shape result ≡ verdict_of self.now s }
        ensures spent { self.now.spent ≡ true → result ≡ None }
    {
        if self.spent {
            return None;
        }
        core_state::verdict(&self.state, self.edges.next_due().is_some())
    }
}

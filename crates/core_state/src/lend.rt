//! Who is lent, and who is next.

ghost use Rattle.std.specs.Prelude.{List};
ghost use Rattle.asp_model.specs.History.{HistoryShape};
ghost use Rattle.def_journals.specs.Journals.{RunShape};
ghost use Rattle.code_table.specs.declared.code.Node.{Node as NodeShape};
ghost use Rattle.core_seats.specs.Seats.{IsKnown};
ghost use Rattle.core_state.specs.Cores.{IsCore, IsSomeCore};
ghost use Rattle.core_state.specs.Lending.{IsLentBy, IsNextReady};

use crate::lease::Lease;
use crate::lends::is_lent;
use crate::state::CoreState;
use asp_model::{Entry, MOST_GRANTED};

impl CoreState {
    /// The lowest-numbered activity that is ready, or none if the budget is used up. An activity is
    /// ready if it is in, can take a step, and is owed no value.
    pub fn next_ready(&self) -> Option<u32>
        ensures next { (h : HistoryShape) (code : List NodeShape) (s : RunShape) →
            IsCore h code self.now s → IsNextReady s result }
    {
        if self.left == 0 {
            return None;
        }
        self.ranks.first_going()
    }

    /// Lends an activity that is ready, with a grant of what is left of the budget up to the most.
    /// It takes no memory.
    pub fn lend(&mut self, number: u32) -> Option<Lease>
        requires core { IsSomeCore self.old }
        requires known { IsKnown number self.old.seats }
        ensures lent { (h : HistoryShape) (code : List NodeShape) (s : RunShape) →
            IsCore h code self.old s → IsLentBy h code s number self.old result self.new }
    {
        if !is_lent(&self.ranks, self.left, number) {
            return None;
        }
        let Some(actor) = self.seats.take(number) else {
            return None;
        };
        self.journal.note(Entry::Lent(number));
        self.ranks.leave(number);
        let grant = MOST_GRANTED.min(self.left);
        self.left -= grant;
        let _entries = self.journal.len();
        self.bursts += 1;
        Some(Lease {
            alloc: self.alloc,
            number,
            burst: self.bursts,
            grant,
            taken: 0,
            spent: false,
            actor,
        })
    }
}

//! A lease that comes back with its grant used, and goes out again at once.

ghost use Rattle.std.specs.Prelude.{
  ◌≡◌,
  ◌*◌,
  ◌+◌,
  ◌++◌,
  ◌-◌,
  ◌<◌,
  ◌≤◌,
  ◌^◌,
  ◌∷◌,
  List,
  OnErr,
  OnOk,
  [],
  false,
  suc,
  true,
};
ghost use Rattle.asp_model.specs.History.{Committed, HistoryShape, Lent};
ghost use Rattle.asp_model.specs.declared.limits.TheConstants.{MOST_GRANTED};
ghost use Rattle.def_journals.specs.Journals.{RunShape};
ghost use Rattle.code_table.specs.declared.code.Node.{Node as NodeShape};
ghost use Rattle.core_state.specs.Cores.{IsCore};
ghost use Rattle.core_state.specs.Journal.{entries_in, room};
ghost use Rattle.long_leases.specs.LongLeases.{IsLongLease};
ghost use Rattle.long_leases.specs.Renewing.{IsRenewedBy, IsSomeLongLease};

use crate::long_lease::LongLease;
use asp_model::{Entry, MOST_GRANTED};
use core_state::{CoreState, Journal, receive_all};
use std::alloc::AllocError;

/// A lease that took more than its grant comes back with the whole grant, and is lent again at once,
/// with the next of its grants, for which budget was kept. Its activity has received what came
/// meanwhile. Nobody else is concerned. After `AllocError` the lease is spent.
pub fn renew(state: &mut CoreState, long: &mut LongLease) -> Result<(), AllocError>
    requires lease { IsSomeLongLease state.old long.old }
    requires beyond { long.old.lease.grant < long.old.lease.taken }
    requires left { long.old.rounds * MOST_GRANTED ≤ state.old.left }
    ensures renewed { (h : HistoryShape) (code : List NodeShape) (s : RunShape) →
        IsCore h code state.old s → (l : IsLongLease h code long.old) →
        OnOk result (IsRenewedBy h code s long.old l state.new long.new) }
    ensures fresh { OnOk result (long.old.lease.spent ≡ false) }
    ensures gives_up { OnErr result (long.new.lease.spent ≡ true) }
    ensures entries { OnErr result
        (entries_in state.new.journal ≡ entries_in state.old.journal) }
{
    if long.lease.spent {
        return Err(AllocError);
    }
    long.lease.spent = true;
    let number = long.lease.number;
    let grant = long.lease.grant;
    state.journal.reserve(state.seats.len() + 2)?;
    let came = state.seats.collect(number);
    let here = long.lease.actor.as_mut();
    receive_all(state.alloc, here, came)?;
    note_both(&mut state.journal, number, grant);
    let _entries = state.journal.len();
    take_grant(state);
    begin_grant(long, state.bursts);
    Ok(())
}

/// The commit of a whole grant, and the next lend. There is room for both.
fn note_both(journal: &mut Journal, number: u32, grant: u64)
    requires room { 1 < room journal.old }
    ensures entries { entries_in journal.new
        ≡ (entries_in journal.old ++ Committed number grant ∷ []) ++ Lent number ∷ [] }
    ensures room { room journal.old ≤ room journal.new + 2 }
{
    journal.note(Entry::Committed {
        number,
        reductions: grant,
    });
    journal.note(Entry::Lent(number));
}

/// One grant less is left of the budget, and there was one lease more.
fn take_grant(state: &mut CoreState)
    requires left { MOST_GRANTED ≤ state.old.left }
    requires few { state.old.bursts + 1 < 2 ^ 64 }
    ensures state { state.new
        ≡ record state.old { left = state.old.left - MOST_GRANTED; bursts = state.old.bursts + 1 } }
{
    state.left -= MOST_GRANTED;
    state.bursts += 1;
}

/// The lease has its next grant, with this burst.
fn begin_grant(long: &mut LongLease, burst: u64)
    requires beyond { long.old.lease.grant < long.old.lease.taken }
    requires rounds { 0 < long.old.rounds }
    ensures number { long.new.lease.number ≡ long.old.lease.number }
    ensures burst { long.new.lease.burst ≡ burst }
    ensures grant { long.new.lease.grant ≡ MOST_GRANTED }
    ensures taken { long.new.lease.taken ≡ long.old.lease.taken - long.old.lease.grant }
    ensures fresh { long.new.lease.spent ≡ false }
    ensures actor { long.new.lease.actor ≡ long.old.lease.actor }
    ensures rounds { suc long.new.rounds ≡ long.old.rounds }
{
    long.lease.burst = burst;
    long.lease.taken -= long.lease.grant;
    long.lease.grant = MOST_GRANTED;
    long.lease.spent = false;
    long.rounds -= 1;
}

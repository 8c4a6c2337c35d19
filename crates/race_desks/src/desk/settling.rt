//! A lease that comes back grant by grant.

ghost use Rattle.std.specs.Prelude.{◌≡◌, IfOk, OnErr, true};
ghost use Rattle.asp_core.specs.Cores.{IsKept, code_of, history_of};
ghost use Rattle.asp_core.specs.Renewals.{IsReservedFor};
ghost use Rattle.race_desks.specs.Settling.{IsBack, IsSettled, IsStopped};
ghost use Rattle.race_desks.specs.Turns.{IsFinished};

use asp_core::{Core, discard_lease};
use core_state::Lease;
use long_leases::LongLease;
use std::alloc::AllocError;
use update_policy::UpdatePolicy;

/// A lease that has ended comes back, grant by grant, and is committed. No other is concerned.
pub(crate) fn bring_back<P: UpdatePolicy>(
    core: &mut Core<P>,
    long: LongLease,
) -> Result<(), AllocError>
    requires kept { IsKept core.old }
    requires lease { IsFinished (history_of core.old) (code_of core.old) long }
    requires reserved { IsReservedFor core.old long }
    ensures back { IsBack P.answer P.asked core.old long core.new }
{
    let last = settle(core, long)?;
    core.commit(last)
}

/// A lease that took more than its grant comes back and goes out again, until it has the last of its
/// grants.
fn settle<P: UpdatePolicy>(core: &mut Core<P>, long: LongLease) -> Result<Lease, AllocError>
    requires kept { IsKept core.old }
    requires lease { IsFinished (history_of core.old) (code_of core.old) long }
    requires reserved { IsReservedFor core.old long }
    ensures settled { IsSettled P.answer P.asked core.old long core.new }
    ensures lease { IfOk result (IsStopped (history_of core.new) (code_of core.new)) }
    ensures number { IfOk result (λ l. l.number ≡ long.lease.number) }
    ensures gives_up { OnErr result (core.new.spent ≡ true) }
{
    let mut long = long;
    while long.goes_beyond() {
        match core.renew(&mut long) {
            Ok(()) => {}
            Err(error) => {
                discard_lease(long);
                return Err(error);
            }
        }
    }
    Ok(long.into_lease())
}

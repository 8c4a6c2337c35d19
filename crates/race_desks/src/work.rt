//! What a worker does between its turns.

ghost use Rattle.std.specs.Prelude.{◌≡◌, List};
ghost use Rattle.asp_model.specs.History.{HistoryShape};
ghost use Rattle.code_table.specs.declared.code.Node.{Node as NodeShape};
ghost use Rattle.long_leases.specs.LongLeases.{IsLongLease};
ghost use Rattle.race_desks.specs.Turns.{IsFinished, row_of};
ghost use Rattle.race_desks.specs.Worked.{IsWorked};

use crate::gate::Gate;
use crate::margin::Margin;
use asp_core::discard_lease;
use long_leases::LongLease;

// A lease is run, so it has stopped then, unless memory ran out. It passes the gate.
fn work_on<G: Gate>(gate: &G, worker: u32, margin: &mut Margin, lease: &mut LongLease)
    ensures lease { (h : HistoryShape) (code : List NodeShape) → IsLongLease h code lease.old →
        IsFinished h code lease.new }
    ensures row { row_of lease.new ≡ row_of lease.old }
{
    let _ran = lease.run();
    margin.add(lease.lease.taken);
    gate.hold(worker as u64, lease.lease.burst());
}

/// A lease is run, if there is one, so it has stopped then, unless memory ran out. It passes the gate.
pub fn work_at<G: Gate>(gate: &G, worker: u32, margin: &mut Margin, held: &mut Option<LongLease>)
    ensures worked { IsWorked held.old held.new }
{
    if let Some(lease) = held {
        work_on(gate, worker, margin, lease);
    }
}

/// A lease is let go, if there is one.
pub fn leave(held: Option<LongLease>) {
    if let Some(lease) = held {
        discard_lease(lease);
    }
}
